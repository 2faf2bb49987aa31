//! The names that stand around a part, by their kinds.

ghost use Rattle.std.specs.Prelude.{◌≡◌, slice_get};
ghost use Rattle.term_model.specs.Scopes.{held_in};
ghost use Rattle.term_model.specs.Values.{kind_or};

use term_model::{Kind, Scope, held_at};

/// The kind of the name that is bound `back` binders further out than the innermost; a name without
/// a binder, which no accepted term has, is a truth value.
pub fn kind_at(names: &Scope<Kind>, back: u32) -> Kind
    ensures { result ≡ kind_or (slice_get (held_in names.now) back) }
{
    match held_at(names, back) {
        Some(kind) => kind,
        None => Kind::Truth,
    }
}
