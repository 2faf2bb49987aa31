//! Readers of one token of plans, or of a sign and a number.
ghost use Rattle.std.specs.Prelude.{◌≤◌, ◌<◌, ◌-◌, ◌^◌, ◌∷◌, IfOk, codes, length, true};
ghost use Rattle.indexmap.specs.IndexMap.{index_map_len, keys};
ghost use Rattle.indexmap.specs.IndexSet.{index_set_len};
ghost use Rattle.term_model.specs.Limits.{most_days};
ghost use Rattle.term_model.specs.Declarations.{declarations};
ghost use Rattle.contract_grammar.specs.Judgements.{integer_at, literal_at, mode_at, use_at};
ghost use Rattle.contract_grammar.specs.Spelling.{mark, valued, word};
ghost use Rattle.contract_parse.specs.Expecting.{IntegerAt, LiteralNumber, ModeAt, UseOf};
ghost use Rattle.contract_parse.specs.Readers.{Reads};
ghost use Rattle.schedule_forms.specs.PlanJudgements.{count_at, flag_at, number_label_at, times_at};
ghost use Rattle.schedule_forms.specs.PlanSpelling.{decimal_part};
ghost use Rattle.schedule_forms.specs.PlanExpecting.{DecimalAt, EveryAt, FirstAt, FlagAt, NumberLabelAt, TimesAt, Token, the_mark, the_word};
ghost use Rattle.schedule_forms.specs.PlanReading.{LeadsPlan, PassesPlan};

use crate::judges::{count_at, flag_at, number_label_at, times_at};
use contract_parse::{
    PartErr, integer_at, is_the_mark, literal_at, next, read_literal, read_use_of_map,
    read_use_of_set, refuse,
};
use decimal::{Decimal, Mode};
use indexmap::{IndexMap, IndexSet};
use term_model::{Decls, MOST_DAYS, Name};

/// This word.
pub fn skip_word<'a>(rest: &'a [u8], wanted: &[u8]) -> Result<&'a [u8], PartErr>
    ensures reads { Reads (PassesPlan (λ ps. the_word wanted.now ∷ ps)) (λ r. word wanted.now)
        (λ r. r.now) rest.now result }
    ensures shorter { IfOk result (λ r. length r.now < length rest.now) }
{
    contract_parse::skip_word(rest, wanted)
}

/// This mark.
pub fn skip_mark<'a>(rest: &'a [u8], wanted: &[u8]) -> Result<&'a [u8], PartErr>
    ensures reads { Reads (PassesPlan (λ ps. the_mark wanted.now ∷ ps)) (λ r. mark wanted.now)
        (λ r. r.now) rest.now result }
    ensures shorter { IfOk result (λ r. length r.now < length rest.now) }
{
    contract_parse::skip_mark(rest, wanted)
}

/// How a number is rounded.
pub fn read_mode(rest: &[u8]) -> Result<(Mode, &[u8]), PartErr>
    ensures reads { Reads (PassesPlan (λ ps. Token ModeAt ∷ ps)) (λ r. valued mode_at r.0)
        (λ r. r.1.now) rest.now result }
{
    contract_parse::read_mode(rest)
}

/// A number without a point, of at most `most`.
pub fn read_integer(most: u32, rest: &[u8]) -> Result<(u32, &[u8]), PartErr>
    ensures most { IfOk result (λ r. r.0 ≤ most) }
    ensures reads { Reads (PassesPlan (λ ps. Token (IntegerAt most) ∷ ps))
        (λ r. valued (integer_at most) r.0) (λ r. r.1.now) rest.now result }
{
    contract_parse::read_integer(most, rest)
}

/// The index of a declared party.
pub fn read_party<'a>(parties: &IndexSet<Name>, rest: &'a [u8]) -> Result<(u32, &'a [u8]), PartErr>
    requires { index_set_len parties.now < 2 ^ 32 }
    ensures reads { Reads (PassesPlan (λ ps. Token (UseOf parties.now.keys) ∷ ps))
        (λ r. valued (use_at parties.now.keys) r.0) (λ r. r.1.now) rest.now result }
{
    read_use_of_set(parties, rest)
}

/// The index of a declared asset.
pub fn read_asset<'a>(
    assets: &IndexMap<Name, u8>,
    rest: &'a [u8],
) -> Result<(u32, &'a [u8]), PartErr>
    requires { index_map_len assets.now < 2 ^ 32 }
    ensures reads { Reads (PassesPlan (λ ps. Token (UseOf (keys assets.now)) ∷ ps))
        (λ r. valued (use_at (keys assets.now)) r.0) (λ r. r.1.now) rest.now result }
{
    read_use_of_map(assets, rest)
}

// The number of a decimal behind its sign.
fn read_decimal_behind_sign(rest: &[u8]) -> Result<(Decimal, &[u8]), PartErr>
    ensures reads { Reads (PassesPlan (λ ps. Token (LiteralNumber true) ∷ ps))
        (λ r. valued (literal_at true) r.0) (λ r. r.1.now) rest.now result }
{
    read_literal(true, rest)
}

/// A decimal, with or without a sign.
pub fn read_decimal(rest: &[u8]) -> Result<(Decimal, &[u8]), PartErr>
    ensures reads { Reads (PassesPlan (λ ps. DecimalAt ∷ ps))
        (λ r. decimal_part r.0.mant r.0.scale) (λ r. r.1.now) rest.now result }
{
    let (token, after) = next(rest);
    if is_the_mark(&token, b"-") {
        return read_decimal_behind_sign(after);
    }
    match literal_at(false, &token) {
        Ok(number) => Ok((number, after)),
        Err(kind) => Err(refuse(kind, &token)),
    }
}

/// The index of a declared number.
pub fn read_number_label<'a>(decls: &Decls, rest: &'a [u8]) -> Result<(u32, &'a [u8]), PartErr>
    ensures reads { Reads (PassesPlan (λ ps. NumberLabelAt (declarations decls.now) ∷ ps))
        (λ r. valued (number_label_at (declarations decls.now)) r.0)
        (λ r. r.1.now) rest.now result }
{
    let (token, after) = next(rest);
    match number_label_at(decls, &token) {
        Ok(index) => Ok((index, after)),
        Err(kind) => Err(refuse(kind, &token)),
    }
}

/// The index of a declared flag.
pub fn read_flag<'a>(decls: &Decls, rest: &'a [u8]) -> Result<(u32, &'a [u8]), PartErr>
    ensures reads { Reads (PassesPlan (λ ps. FlagAt (declarations decls.now) ∷ ps))
        (λ r. valued (flag_at (declarations decls.now)) r.0) (λ r. r.1.now) rest.now result }
{
    let (token, after) = next(rest);
    match flag_at(decls, &token) {
        Ok(index) => Ok((index, after)),
        Err(kind) => Err(refuse(kind, &token)),
    }
}

/// The day of the first of at most so many payments.
pub fn read_first_day(most: u32, rest: &[u8]) -> Result<(u32, &[u8]), PartErr>
    ensures most { IfOk result (λ r. r.0 ≤ most_days) }
    ensures reads { Reads (LeadsPlan (λ ps. FirstAt most ∷ ps)
        (λ r ps. the_word (codes "every") ∷ EveryAt most r.0 ∷ ps))
        (λ r. valued (integer_at most_days) r.0) (λ r. r.1.now) rest.now result }
{
    let (token, after) = next(rest);
    match integer_at(MOST_DAYS, &token) {
        Ok(first) => Ok((first, after)),
        Err(kind) => Err(refuse(kind, &token)),
    }
}

/// The days from one payment to the next, of which the first is on this day.
pub fn read_interval(most: u32, first: u32, rest: &[u8]) -> Result<(u32, &[u8]), PartErr>
    ensures most { IfOk result (λ r. r.0 ≤ most_days) }
    ensures reads { Reads (LeadsPlan (λ ps. EveryAt most first ∷ ps)
        (λ r ps. the_word (codes "times") ∷ TimesAt most first r.0 ∷ ps))
        (λ r. valued (count_at most_days) r.0) (λ r. r.1.now) rest.now result }
{
    let (token, after) = next(rest);
    match count_at(MOST_DAYS, &token) {
        Ok(every) => Ok((every, after)),
        Err(kind) => Err(refuse(kind, &token)),
    }
}

/// How many payments there are, which end by day 100,000.
pub fn read_count(most: u32, first: u32, every: u32, rest: &[u8]) -> Result<(u32, &[u8]), PartErr>
    requires first { first ≤ most_days }
    requires every { every ≤ most_days }
    requires most { most ≤ 5_000 }
    ensures reads { Reads (PassesPlan (λ ps. TimesAt most first every ∷ ps))
        (λ r. valued (times_at most first every) r.0) (λ r. r.1.now) rest.now result }
{
    let (token, after) = next(rest);
    match times_at(most, first, every, &token) {
        Ok(count) => Ok((count, after)),
        Err(kind) => Err(refuse(kind, &token)),
    }
}
