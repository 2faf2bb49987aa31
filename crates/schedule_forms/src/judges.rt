//! What one token is where a plan expects what no portfolio has, or the kind of its fault.
ghost use Rattle.std.specs.Prelude.{◌≡◌, ◌≤◌, ◌<◌, ◌+◌, ◌-◌, ◌*◌, IfOk};
ghost use Rattle.std.specs.Map.{keys_of};
ghost use Rattle.term_model.specs.Limits.{most_days};
ghost use Rattle.term_model.specs.Declarations.{declarations};
ghost use Rattle.contract_grammar.specs.Judgements.{use_at};
ghost use Rattle.contract_parse.specs.Reading.{tok_of};
ghost use Rattle.schedule_forms.specs.PlanJudgements.{count_at, flag_at, number_label_at, times_at};

use contract_grammar::TextKind;
use contract_parse::{Lexeme, index_in_map, integer_at, is_name};
use term_model::{Decls, Label, MOST_DAYS};

/// A number without a point, from 1 up to `most`.
pub fn count_at(most: u32, token: &Lexeme<'_>) -> Result<u32, TextKind>
    ensures value { result ≡ count_at most (tok_of token.now) }
    ensures some { IfOk result (λ n. 0 < n) }
    ensures most { IfOk result (λ n. n ≤ most) }
{
    match integer_at(most, token) {
        Ok(0) => Err(TextKind::Number),
        Ok(count) => Ok(count),
        Err(kind) => Err(kind),
    }
}

/// So many payments as end by the last day, where the first is on a day and each so many days after
/// the one before it.
pub fn times_at(most: u32, first: u32, every: u32, token: &Lexeme<'_>) -> Result<u32, TextKind>
    requires first { first ≤ most_days }
    requires every { every ≤ most_days }
    requires most { most ≤ 5_000 }
    ensures { result ≡ times_at most first every (tok_of token.now) }
{
    match count_at(most, token) {
        Ok(times) => {
            if first + (times - 1) * every <= MOST_DAYS {
                Ok(times)
            } else {
                Err(TextKind::Number)
            }
        }
        Err(kind) => Err(kind),
    }
}

// A declared observable, by its index.
fn label_at(decls: &Decls, token: &Lexeme<'_>) -> Result<u32, TextKind>
    ensures { result ≡ use_at (keys_of (declarations decls.now).labels) (tok_of token.now) }
{
    if !is_name(token) {
        return Err(TextKind::Syntax);
    }
    match index_in_map(&decls.labels, token.text) {
        Some(index) => Ok(index),
        None => Err(TextKind::Unknown),
    }
}

/// A declared number, by its index.
pub fn number_label_at(decls: &Decls, token: &Lexeme<'_>) -> Result<u32, TextKind>
    ensures { result ≡ number_label_at (declarations decls.now) (tok_of token.now) }
{
    let index = label_at(decls, token)?;
    match decls.label(index) {
        Some(Label::Number { .. }) => Ok(index),
        _ => Err(TextKind::Unknown),
    }
}

/// A declared flag, by its index.
pub fn flag_at(decls: &Decls, token: &Lexeme<'_>) -> Result<u32, TextKind>
    ensures { result ≡ flag_at (declarations decls.now) (tok_of token.now) }
{
    let index = label_at(decls, token)?;
    match decls.label(index) {
        Some(Label::Flag) => Ok(index),
        _ => Err(TextKind::Unknown),
    }
}
