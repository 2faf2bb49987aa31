//! The ranges of the names that stand around an expression, and of what is observed.

ghost use Rattle.std.specs.Prelude.{◌≡◌, IfErr, IfOk, slice_get};
ghost use Rattle.term_model.specs.Declarations.{declarations};
ghost use Rattle.term_model.specs.Environments.{label_of};
ghost use Rattle.term_model.specs.Values.{kind_or};
ghost use Rattle.term_model.specs.Bounds.{range_kinds};
ghost use Rattle.interval_check.specs.Ranges.{range, range_found, IsFit};
ghost use Rattle.interval_check.specs.RangeScopes.{ranges_in};
ghost use Rattle.interval_check.specs.RangeTrials.{observed, range_or_truth};

use crate::intervals::Interval;
use crate::ranges::{Range, TRUTH, checked};
use term_model::{Decls, Kind, Label, Scope};

/// The range of the name that is bound `back` binders further out than the innermost. One without a
/// binder, which no closed term has, is a truth value.
#[inline(always)]
#[cycle(scoping)]
pub fn range_at(scope: &Scope<Range>, back: u32) -> Range
    ensures range { range result ≡ range_or_truth (slice_get (ranges_in scope.now) back) }
    ensures kind { result.kind ≡ kind_or (slice_get (range_kinds (ranges_in scope.now)) back) }
{
    match scope {
        Scope::Empty => TRUTH,
        Scope::Bound { held, outer } => {
            if back == 0 {
                *held
            } else {
                range_further(outer, back - 1)
            }
        }
    }
}

// The range of a name that the innermost binder does not bind.
#[cycle(scoping)]
fn range_further(outer: &Scope<Range>, back: u32) -> Range
    ensures range { range result ≡ range_or_truth (slice_get (ranges_in outer.now) back) }
    ensures kind { result.kind ≡ kind_or (slice_get (range_kinds (ranges_in outer.now)) back) }
{
    range_at(outer, back)
}

/// The range of what is observed, by its declared bounds.
pub fn range_observed(decls: &Decls, label: u32) -> Result<Range, u32>
    ensures range { range_found result ≡ observed (label_of (declarations decls.now) label) }
    ensures here { IfErr result (λ node. node ≡ 0) }
    ensures fit { IfOk result (λ r. IsFit (range r)) }
{
    match decls.label(label) {
        Some(Label::Number { scale, low, high }) => {
            checked(Interval { low, high }, Kind::Number { scale })
        }
        Some(Label::Flag) | None => Ok(TRUTH),
    }
}
