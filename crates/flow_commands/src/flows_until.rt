//! What flows are asked over.

ghost use Rattle.std.specs.Prelude.{◌≤ℤ◌, pos};
ghost use Rattle.flow_eval.specs.Readiness.{last_day};

use fixing_files::Fixings;
use used_contracts::Choice;

/// What flows are asked over: the contracts that are used, what is fixed of their labels, and the
/// last day, which is in range; and whether they are to be summed.
#[derive(Clone, Copy)]
pub struct FlowsUntil<'a> {
    pub choice: Choice<'a>,
    pub fixings: &'a Fixings,
    pub last: i64,
    pub summed: bool,
    pub ghost first: { pos 0 ≤ℤ last },
    pub ghost within: { last ≤ℤ pos last_day },
}
