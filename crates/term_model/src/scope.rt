//! What is known of the names that are bound around a part of a term.

ghost use Rattle.std.specs.Prelude.{◌≡◌, slice_get};
ghost use Rattle.term_model.specs.Scopes.{held_in};

/// What is known of the names that are bound around a part, innermost first. It lies on the stack.
#[derive(Clone, Copy)]
pub enum Scope<'a, T> {
    Empty,
    Bound { held: T, outer: &'a Scope<'a, T> },
}

/// What is known of the name that is bound `back` binders further out than the innermost; nothing
/// without a binder.
pub fn held_at<T: Copy>(scope: &Scope<T>, back: u32) -> Option<T>
    ensures { result ≡ slice_get (held_in scope.now) back }
{
    match scope {
        Scope::Empty => None,
        Scope::Bound { held, outer } => {
            if back == 0 {
                Some(*held)
            } else {
                held_at(outer, back - 1)
            }
        }
    }
}
