//! Sorts, and the sort of what is observed.

ghost use Rattle.std.specs.Prelude.{◌≡◌};
ghost use Rattle.term_model.specs.Declarations.{declarations};
ghost use Rattle.term_model.specs.Environments.{label_of};
ghost use Rattle.term_model.specs.Kinds.{kind_of_label};
ghost use Rattle.time_types.specs.SortKinds.{sort_of};

use term_model::{Decls, Label};

/// What an expression is by its form. A kind would also count decimals, which at this rule have no
/// limit yet.
#[derive(Clone, Copy, Debug, PartialEq, Eq)]
pub enum Sort {
    Truth,
    Number,
}

/// The sort of what is observed.
pub fn sort_observed(decls: &Decls, label: u32) -> Option<Sort>
    ensures { result ≡ sort_of (kind_of_label (label_of (declarations decls.now) label)) }
{
    match decls.label(label) {
        Some(Label::Number { .. }) => Some(Sort::Number),
        Some(Label::Flag) => Some(Sort::Truth),
        None => None,
    }
}
