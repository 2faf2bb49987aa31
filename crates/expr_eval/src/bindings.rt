//! The names around an expression, those of accumulators among them.

ghost use Rattle.std.specs.Prelude.{◌≡◌, slice_get};
ghost use Rattle.term_model.specs.Values.{kind_or};
ghost use Rattle.expr_eval.specs.Rooms.{kinds_of};
ghost use Rattle.expr_eval.specs.Bindings.{bindings};

use crate::scratch::{Binding, Scratch};
use term_model::Kind;

/// The names that are bound around an expression, innermost first: those of accumulators lie on the
/// stack, inside those of a scratch that is lent.
#[derive(Clone, Copy)]
pub enum Bindings<'a> {
    Lent {
        scratch: &'a Scratch,
    },
    Inner {
        binding: Binding,
        outer: &'a Bindings<'a>,
    },
}

/// The entry of the name that is bound `back` binders further out than the innermost.
pub fn binding_at(names: &Bindings, back: u32) -> Option<Binding>
    ensures { result ≡ slice_get (bindings names.now) back }
{
    match names {
        Bindings::Lent { scratch } => scratch.at(back as usize),
        Bindings::Inner { binding, outer } => {
            if back == 0 {
                Some(*binding)
            } else {
                binding_at(outer, back - 1)
            }
        }
    }
}

/// The kind of the name that is bound `back` binders further out than the innermost; a name without
/// a binder, which no accepted term has, is a truth value.
pub fn kind_at(names: &Bindings, back: u32) -> Kind
    ensures { result ≡ kind_or (slice_get (kinds_of (bindings names.now)) back) }
{
    match binding_at(names, back) {
        Some(binding) => binding.kind,
        None => Kind::Truth,
    }
}
