//! Where a part of a term stands.

ghost use Rattle.std.specs.Prelude.{◌≤◌, length};
ghost use Rattle.term_model.specs.Limits.{most_height_of_code};
ghost use Rattle.contract_grammar.specs.Names.{names_in};

use term_model::{Decls, Scope};

/// Where a part of a term stands: the declarations, the names that are bound around it, and how
/// many constructs are open there. These are no fewer than the names, and no more than payoff code
/// allows, whose terms are the deepest.
#[derive(Clone, Copy)]
pub struct Frame<'a> {
    pub decls: &'a Decls,
    pub bound: &'a Scope<'a, &'a [u8]>,
    pub depth: u32,
    pub ghost few: { length (names_in bound.now) ≤ depth },
    pub ghost shallow: { depth ≤ most_height_of_code },
}
