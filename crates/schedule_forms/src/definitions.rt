//! Plans behind their names.
ghost use Rattle.std.specs.Prelude.{◌≡◌, ◌≤◌, ◌<◌, ◌-◌, ◌^◌, ◌∷◌, IfOk, codes};
ghost use Rattle.indexmap.specs.IndexMap.{index_map_len, keys};
ghost use Rattle.indexmap.specs.IndexSet.{index_set_len};
ghost use Rattle.term_model.specs.Limits.{greatest_offset, most_days};
ghost use Rattle.term_model.specs.Declarations.{declarations};
ghost use Rattle.contract_parse.specs.Expecting.{IntegerAt, ModeAt, UseOf};
ghost use Rattle.contract_parse.specs.Readers.{Reads, behind_word};
ghost use Rattle.schedule_forms.specs.PlanSpelling.{cover_part, days_part, definition_part, every_part, first_part, flag_part, head_of, leg_part, named_by, notional_part, observed_part, rounding_part, route_part, size_part, times_part};
ghost use Rattle.schedule_forms.specs.PlanExpecting.{DecimalAt, EveryAt, FirstAt, FlagAt, NumberLabelAt, SizeAt, TimesAt, Token, definition_expected, fixing_expected, leg_expected, route_expected, the_mark, the_word};
ghost use Rattle.schedule_forms.specs.PlanReading.{LeadsPlan, PassesPlan};

use crate::heads::PlanHead;
use crate::plans::{Leg, Plan, Size};
use crate::readers::{
    read_asset, read_count, read_decimal, read_first_day, read_flag, read_integer, read_interval,
    read_mode, read_number_label, read_party, skip_mark, skip_word,
};
use contract_parse::{PartErr, after_word, look};
use decimal::{Decimal, Mode};
use indexmap::{IndexMap, IndexSet};
use term_model::{Decls, GREATEST_OFFSET, Name};

// How a size is rounded.
#[tactic(auto, using(contract_grammar::proofs::Parts::followed_by))]
fn read_rounding(rest: &[u8]) -> Result<(Mode, u8, &[u8]), PartErr>
    ensures reads { Reads (PassesPlan (λ ps. the_mark (codes "(") ∷ Token ModeAt
        ∷ the_mark (codes ",") ∷ Token (IntegerAt 27) ∷ ps))
        (λ r. rounding_part r.0 r.1) (λ r. r.2.now) rest.now result }
{
    let rest = skip_mark(rest, b"(")?;
    let (mode, rest) = read_mode(rest)?;
    let rest = skip_mark(rest, b",")?;
    let (scale, rest) = read_integer(27, rest)?;
    Ok((mode, scale as u8, rest))
}

// What is observed, and how many days before.
#[tactic(auto, using(contract_grammar::proofs::Parts::followed_by))]
fn read_observed<'a>(decls: &Decls, rest: &'a [u8]) -> Result<(u32, u32, &'a [u8]), PartErr>
    ensures reads { Reads (PassesPlan (λ ps. the_mark (codes ",")
        ∷ NumberLabelAt (declarations decls.now) ∷ the_mark (codes ",")
        ∷ Token (IntegerAt greatest_offset) ∷ ps))
        (λ r. observed_part (declarations decls.now) r.0 r.1) (λ r. r.2.now) rest.now result }
{
    let rest = skip_mark(rest, b",")?;
    let (label, rest) = read_number_label(decls, rest)?;
    let rest = skip_mark(rest, b",")?;
    let (lag, rest) = read_integer(GREATEST_OFFSET as u32, rest)?;
    Ok((label, lag, rest))
}

// A notional, to the end of its size.
#[tactic(auto, using(contract_grammar::proofs::Parts::followed_by))]
fn read_notional(rest: &[u8]) -> Result<(Decimal, &[u8]), PartErr>
    ensures reads { Reads (PassesPlan
        (λ ps. the_mark (codes ",") ∷ DecimalAt ∷ the_mark (codes ")") ∷ ps))
        (λ r. notional_part r.0.mant r.0.scale) (λ r. r.1.now) rest.now result }
{
    let rest = skip_mark(rest, b",")?;
    let (number, rest) = read_decimal(rest)?;
    let rest = skip_mark(rest, b")")?;
    Ok((number, rest))
}

// An observed size behind `round`.
#[tactic(auto, using(contract_grammar::proofs::Parts::followed_by))]
fn read_fixing<'a>(decls: &Decls, rest: &'a [u8]) -> Result<(Size, &'a [u8]), PartErr>
    ensures reads { Reads (PassesPlan (λ ps. fixing_expected (declarations decls.now) ps))
        (λ r. behind_word (codes "round") (size_part (declarations decls.now) r.0))
        (λ r. r.1.now) rest.now result }
{
    let (mode, scale, rest) = read_rounding(rest)?;
    let (label, lag, rest) = read_observed(decls, rest)?;
    let (notional, rest) = read_notional(rest)?;
    let size = Size::Fixing {
        mode,
        scale,
        label,
        lag,
        mant: notional.mant,
        mant_scale: notional.scale,
    };
    Ok((size, rest))
}

// A size.
fn read_size<'a>(decls: &Decls, rest: &'a [u8]) -> Result<(Size, &'a [u8]), PartErr>
    ensures reads { Reads (PassesPlan (λ ps. SizeAt (declarations decls.now) ∷ ps))
        (λ r. size_part (declarations decls.now) r.0) (λ r. r.1.now) rest.now result }
{
    match after_word(&look(rest), b"round") {
        Some(after) => read_fixing(decls, after),
        None => {
            let (number, rest) = read_decimal(rest)?;
            let size = Size::Fixed {
                mant: number.mant,
                scale: number.scale,
            };
            Ok((size, rest))
        }
    }
}

// A declared party behind a word.
#[tactic(auto, using(contract_grammar::proofs::Parts::followed_by))]
fn read_party_behind<'a>(
    wanted: &[u8],
    parties: &IndexSet<Name>,
    rest: &'a [u8],
) -> Result<(u32, &'a [u8]), PartErr>
    requires { index_set_len parties.now < 2 ^ 32 }
    ensures reads { Reads (PassesPlan
        (λ ps. the_word wanted.now ∷ Token (UseOf parties.now.keys) ∷ ps))
        (λ r. named_by wanted.now parties.now.keys r.0) (λ r. r.1.now) rest.now result }
{
    let rest = skip_word(rest, wanted)?;
    read_party(parties, rest)
}

// What is paid, behind its word.
#[tactic(auto, using(contract_grammar::proofs::Parts::followed_by))]
fn read_paid<'a>(assets: &IndexMap<Name, u8>, rest: &'a [u8]) -> Result<(u32, &'a [u8]), PartErr>
    requires { index_map_len assets.now < 2 ^ 32 }
    ensures reads { Reads (PassesPlan
        (λ ps. the_word (codes "of") ∷ Token (UseOf (keys assets.now)) ∷ ps))
        (λ r. named_by (codes "of") (keys assets.now) r.0) (λ r. r.1.now) rest.now result }
{
    let rest = skip_word(rest, b"of")?;
    read_asset(assets, rest)
}

// What is paid, by whom and to whom.
#[tactic(auto, using(contract_grammar::proofs::Parts::followed_by))]
fn read_route<'a>(decls: &Decls, rest: &'a [u8]) -> Result<(u32, u32, u32, &'a [u8]), PartErr>
    ensures reads { Reads (PassesPlan (λ ps. route_expected (declarations decls.now) ps))
        (λ r. route_part (declarations decls.now) r.0 r.1 r.2) (λ r. r.3.now) rest.now result }
{
    let (asset, rest) = read_paid(&decls.assets, rest)?;
    let (from, rest) = read_party_behind(b"from", &decls.parties, rest)?;
    let (to, rest) = read_party_behind(b"to", &decls.parties, rest)?;
    Ok((asset, from, to, rest))
}

// The first day of at most so many payments.
#[tactic(auto, using(contract_grammar::proofs::Parts::followed_by))]
fn read_first(most: u32, rest: &[u8]) -> Result<(u32, &[u8]), PartErr>
    ensures reads { Reads (LeadsPlan (λ ps. the_word (codes "first") ∷ FirstAt most ∷ ps)
        (λ r ps. the_word (codes "every") ∷ EveryAt most r.0 ∷ ps)) (λ r. first_part r.0)
        (λ r. r.1.now) rest.now result }
    ensures most { IfOk result (λ r. r.0 ≤ most_days) }
{
    let rest = skip_word(rest, b"first")?;
    read_first_day(most, rest)
}

// The days from one payment to the next.
#[tactic(auto, using(contract_grammar::proofs::Parts::followed_by))]
fn read_every(most: u32, first: u32, rest: &[u8]) -> Result<(u32, &[u8]), PartErr>
    ensures reads { Reads (LeadsPlan (λ ps. the_word (codes "every") ∷ EveryAt most first ∷ ps)
        (λ r ps. the_word (codes "times") ∷ TimesAt most first r.0 ∷ ps)) (λ r. every_part r.0)
        (λ r. r.1.now) rest.now result }
    ensures most { IfOk result (λ r. r.0 ≤ most_days) }
{
    let rest = skip_word(rest, b"every")?;
    read_interval(most, first, rest)
}

// How many payments there are.
#[tactic(auto, using(contract_grammar::proofs::Parts::followed_by))]
fn read_times(most: u32, first: u32, every: u32, rest: &[u8]) -> Result<(u32, &[u8]), PartErr>
    requires first { first ≤ most_days }
    requires every { every ≤ most_days }
    requires most { most ≤ 5_000 }
    ensures reads { Reads (PassesPlan
        (λ ps. the_word (codes "times") ∷ TimesAt most first every ∷ ps))
        (λ r. times_part most first every r.0) (λ r. r.1.now) rest.now result }
{
    let rest = skip_word(rest, b"times")?;
    read_count(most, first, every, rest)
}

// The days of at most so many payments.
#[tactic(auto, using(contract_grammar::proofs::Parts::followed_by))]
fn read_days(most: u32, rest: &[u8]) -> Result<(u32, u32, u32, &[u8]), PartErr>
    requires most { most ≤ 5_000 }
    ensures reads { Reads (PassesPlan (λ ps. the_word (codes "first") ∷ FirstAt most ∷ ps))
        (λ r. days_part most r.0 r.1 r.2) (λ r. r.3.now) rest.now result }
{
    let (first, rest) = read_first(most, rest)?;
    let (every, rest) = read_every(most, first, rest)?;
    let (times, rest) = read_times(most, first, every, rest)?;
    Ok((first, every, times, rest))
}

// A leg of at most so many payments.
#[tactic(auto, using(contract_grammar::proofs::Parts::followed_by))]
fn read_leg<'a>(decls: &Decls, most: u32, rest: &'a [u8]) -> Result<(Leg, &'a [u8]), PartErr>
    requires most { most ≤ 5_000 }
    ensures reads { Reads (PassesPlan (λ ps. leg_expected (declarations decls.now) most ps))
        (λ r. leg_part (declarations decls.now) most r.0) (λ r. r.1.now) rest.now result }
{
    let (size, rest) = read_size(decls, rest)?;
    let (asset, from, to, rest) = read_route(decls, rest)?;
    let (first, every, times, rest) = read_days(most, rest)?;
    let leg = Leg {
        size,
        asset,
        from,
        to,
        first,
        every,
        times,
    };
    Ok((leg, rest))
}

// Two legs, one against the other.
#[tactic(auto, using(contract_grammar::proofs::Parts::followed_by))]
fn read_swap<'a>(decls: &Decls, rest: &'a [u8]) -> Result<(Plan, &'a [u8]), PartErr>
    ensures reads { Reads (PassesPlan
        (λ ps. definition_expected (declarations decls.now) PlanHead.Swap ps))
        (λ r. definition_part (declarations decls.now) r.0) (λ r. r.1.now) rest.now result }
    ensures head { IfOk result (λ r. head_of r.0 ≡ PlanHead.Swap) }
{
    let (one, rest) = read_leg(decls, 5_000, rest)?;
    let rest = skip_word(rest, b"against")?;
    let (two, rest) = read_leg(decls, 5_000, rest)?;
    Ok((Plan::Swap { one, two }, rest))
}

// The flag that ends a leg.
#[tactic(auto, using(contract_grammar::proofs::Parts::followed_by))]
fn read_ending_flag<'a>(decls: &Decls, rest: &'a [u8]) -> Result<(u32, &'a [u8]), PartErr>
    ensures reads { Reads (PassesPlan
        (λ ps. the_word (codes "until") ∷ FlagAt (declarations decls.now) ∷ ps))
        (λ r. flag_part (declarations decls.now) r.0) (λ r. r.1.now) rest.now result }
{
    let rest = skip_word(rest, b"until")?;
    read_flag(decls, rest)
}

// What it covers.
#[tactic(auto, using(contract_grammar::proofs::Parts::followed_by))]
fn read_cover(rest: &[u8]) -> Result<(Decimal, &[u8]), PartErr>
    ensures reads { Reads (PassesPlan (λ ps. the_word (codes "covers") ∷ DecimalAt ∷ ps))
        (λ r. cover_part r.0.mant r.0.scale) (λ r. r.1.now) rest.now result }
{
    let rest = skip_word(rest, b"covers")?;
    read_decimal(rest)
}

// A leg, and the flag that ends it.
#[tactic(auto, using(contract_grammar::proofs::Parts::followed_by))]
fn read_guarded<'a>(decls: &Decls, rest: &'a [u8]) -> Result<(Plan, &'a [u8]), PartErr>
    ensures reads { Reads (PassesPlan
        (λ ps. definition_expected (declarations decls.now) PlanHead.Guarded ps))
        (λ r. definition_part (declarations decls.now) r.0) (λ r. r.1.now) rest.now result }
    ensures head { IfOk result (λ r. head_of r.0 ≡ PlanHead.Guarded) }
{
    let (leg, rest) = read_leg(decls, 60, rest)?;
    let (flag, rest) = read_ending_flag(decls, rest)?;
    let (number, rest) = read_cover(rest)?;
    let plan = Plan::Guarded {
        leg,
        flag,
        mant: number.mant,
        scale: number.scale,
    };
    Ok((plan, rest))
}

/// A plan behind its name.
pub fn read_definition<'a>(
    head: PlanHead,
    decls: &Decls,
    rest: &'a [u8],
) -> Result<(Plan, &'a [u8]), PartErr>
    ensures reads { Reads (PassesPlan (λ ps. definition_expected (declarations decls.now) head ps))
        (λ r. definition_part (declarations decls.now) r.0) (λ r. r.1.now) rest.now result }
    ensures head { IfOk result (λ r. head_of r.0 ≡ head) }
{
    match head {
        PlanHead::Leg => {
            let (leg, rest) = read_leg(decls, 5_000, rest)?;
            Ok((Plan::Leg { leg }, rest))
        }
        PlanHead::Swap => read_swap(decls, rest),
        PlanHead::Guarded => read_guarded(decls, rest),
    }
}
