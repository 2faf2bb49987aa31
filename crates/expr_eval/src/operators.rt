//! What is done with the value of the one part of an expression.

ghost use Rattle.std.specs.Prelude.{◌≡◌};
ghost use Rattle.expr_eval.specs.Operators.{FitsOne, of_one};

use crate::operations::{Typed, at_kind, negate, round, verdict};
use decimal::Mode;
use term_model::Kind;

/// What is done with one value.
#[derive(Clone, Copy)]
pub enum OnOne {
    Negative,
    Opposite,
    At { kind: Kind },
    Rounded { mode: Mode, scale: u8 },
}

/// The outcome on one value.
pub fn done_on_one(op: OnOne, of: Typed) -> Typed
    requires { FitsOne op of }
    ensures { result ≡ of_one op of }
{
    match op {
        OnOne::Negative => negate(of),
        OnOne::Opposite => verdict(!of.value.is_true()),
        OnOne::At { kind } => at_kind(kind, of),
        OnOne::Rounded { mode, scale } => round(mode, scale, of),
    }
}
