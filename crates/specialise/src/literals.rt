//! Literals of what fixings tell.

ghost use Rattle.std.specs.Prelude.{◌≡◌, Some};
ghost use Rattle.term_model.specs.Declarations.{declarations};
ghost use Rattle.term_model.specs.Terms.{Obs};
ghost use Rattle.term_model.specs.Environments.{label_of};
ghost use Rattle.term_model.specs.Kinds as model;
ghost use Rattle.rewriting.specs.Rebuilding.{after};
ghost use Rattle.specialise.specs.Specialising.{specialised};
ghost use Rattle.specialise.specs.Specialisable.{IsLookedUp};

use fixing_files::Fixings;
use rewriting::literal;
use term_model::{Decls, Expr, Kind, Label};

// The kind of what is observed; none where the label is not declared.
fn kind_of_label(decls: &Decls, label: u32) -> Option<Kind>
    ensures { result ≡ model.kind_of_label (label_of (declarations decls.now) label) }
{
    match decls.label(label) {
        Some(Label::Number { scale, .. }) => Some(Kind::Number { scale }),
        Some(Label::Flag) => Some(Kind::Truth),
        None => None,
    }
}

/// The literal of what is observed on a day, where the place is fixed.
pub fn observed(decls: &Decls, label: u32, offset: i32, fixings: &Fixings, day: i64) -> Option<Expr>
    requires { IsLookedUp day }
    ensures { after (Obs label offset) result
        ≡ specialised (declarations decls.now) fixings.now (Some day) (Obs label offset) }
{
    match fixings.get(label, day + offset as i64) {
        Some(value) => match kind_of_label(decls, label) {
            Some(kind) => Some(literal(kind, value)),
            None => None,
        },
        None => None,
    }
}
