//! What `advance` and `novate` ask of the contracts of a text.

ghost use Rattle.std.specs.Prelude.{◌≤◌};
ghost use Rattle.term_model.specs.Limits.{last_start};

use fixing_files::Fixings;
use used_contracts::Choice;

/// A party and the one that takes its place in what is left of a contract, by their indices.
#[derive(Clone, Copy)]
pub struct Renaming<'a> {
    pub contract: &'a str,
    pub old: u32,
    pub new: u32,
}

/// What contracts are advanced over: which are used, what is fixed of their labels, and the new
/// day, which is in range; and the renaming, if there is one.
#[derive(Clone, Copy)]
pub struct AdvanceTo<'a> {
    pub choice: Choice<'a>,
    pub fixings: &'a Fixings,
    pub day: u32,
    pub renaming: Option<Renaming<'a>>,
    pub ghost first: { choice.decls.now.start ≤ day },
    pub ghost within: { day ≤ last_start },
}
