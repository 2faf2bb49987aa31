//! The scales of the names that stand around an expression, and of what is observed.

ghost use Rattle.std.specs.Prelude.{◌≡◌, slice_get};
ghost use Rattle.term_model.specs.Declarations.{declarations};
ghost use Rattle.term_model.specs.Environments.{label_of};
ghost use Rattle.term_model.specs.Kinds.{kind_of_label, scale_or_zero};
ghost use Rattle.term_model.specs.Scopes.{held_in};
ghost use Rattle.scale_check.specs.ScaleScopes.{found_scale};

use term_model::{Decls, Label, Scope, held_at};

/// The scale of the name that is bound `back` binders further out than the innermost, or 0 where
/// there is none; a truth value has 0.
pub fn scale_at(scope: &Scope<u8>, back: u32) -> u8
    ensures { result ≡ found_scale (slice_get (held_in scope.now) back) }
{
    match held_at(scope, back) {
        Some(scale) => scale,
        None => 0,
    }
}

/// The scale of what is observed; a truth value has 0.
pub fn scale_observed(decls: &Decls, label: u32) -> u8
    ensures { result ≡ scale_or_zero (kind_of_label (label_of (declarations decls.now) label)) }
{
    match decls.label(label) {
        Some(Label::Number { scale, .. }) => scale,
        Some(Label::Flag) | None => 0,
    }
}
