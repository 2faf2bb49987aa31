//! Blocks of days on which a watch cannot be met, and which are passed over at once.

ghost use Rattle.std.specs.Prelude.{◌≡◌, ◌≤◌, ◌<◌, ◌+◌, ◌^◌, ◌+ℤ◌, ◌*ℤ◌, ℕ, pos, unsigned_abs, true, IfSome};
ghost use Rattle.fixing_files.specs.Runs.{IsRising};
ghost use Rattle.fixing_files.specs.Blocks.{AreBlocks};
ghost use Rattle.fixing_files.specs.RunPlaces.{IsOn};
ghost use Rattle.expr_eval.specs.Passing.{CannotMeet, IsBeyond, IsPassed, opposite};

use crate::watches::{Trial, Watch, brought};
use fixing_files::{BLOCK_DAYS, Block, FixedDay, LentRun};
use term_model::CmpOp;

/// The days of a block.
pub const BLOCK: u32 = BLOCK_DAYS as u32;

/// The days from one that stands at an index up to the end of its block.
pub fn days_in_block(at: usize) -> u32
    ensures some { 1 ≤ result }
    ensures few { result ≤ 128 }
{
    (BLOCK_DAYS - at % BLOCK_DAYS) as u32
}

// The comparison that holds exactly where another does not.
fn opposite(op: CmpOp) -> CmpOp
    ensures { result ≡ opposite op }
{
    match op {
        CmpOp::Less => CmpOp::GreaterEq,
        CmpOp::LessEq => CmpOp::Greater,
        CmpOp::Greater => CmpOp::LessEq,
        CmpOp::GreaterEq => CmpOp::Less,
        CmpOp::Equal => CmpOp::Unequal,
        CmpOp::Unequal => CmpOp::Equal,
    }
}

// Whether a comparison with a bound holds of no number of a block.
fn is_beyond(op: CmpOp, block: Block, bound: i128) -> bool
    ensures { result ≡ true → IsBeyond op block bound }
{
    match op {
        CmpOp::Less => bound <= block.low,
        CmpOp::LessEq => bound < block.low,
        CmpOp::Greater => block.high <= bound,
        CmpOp::GreaterEq => block.high < bound,
        CmpOp::Equal => bound < block.low || block.high < bound,
        CmpOp::Unequal => block.low == bound && block.high == bound,
    }
}

// A block whose numbers are multiplied, where words hold them.
fn multiplied(block: Block, factor: i64) -> Option<Block>
    ensures { IfSome result (λ b.
        b ≡ record { low = block.low *ℤ factor; high = block.high *ℤ factor }) }
{
    Some(Block {
        low: brought(block.low, factor)?,
        high: brought(block.high, factor)?,
    })
}

// Whether it is seen that no number of a block meets a watch.
fn cannot_meet(watch: Watch, block: Block) -> bool
    ensures { result ≡ true → CannotMeet watch block }
{
    let Trial::Number { op, factor, bound } = watch.trial else {
        return false;
    };
    if factor <= 0 {
        return false;
    }
    let Some(block) = multiplied(block, factor) else {
        return false;
    };
    let op = if watch.wanted { op } else { opposite(op) };
    is_beyond(op, block, bound)
}

// Whether a day and the 127 behind it stand in a run from an index on. They do where the last one
// stands in its place, since the run rises.
fn stands_whole(run: &[FixedDay], at: usize, day: i64) -> bool
    requires rising { IsRising run.now }
    requires day { unsigned_abs day ≤ 2 ^ 62 + 2 ^ 32 }
    ensures { result ≡ true → (i : ℕ) → i < 128 → IsOn run.now (day +ℤ pos i) (at + i) }
{
    if at >= run.len() || run.len() - at < BLOCK_DAYS {
        return false;
    }
    run[at].day == day && run[at + 127].day == day + 127
}

/// Whether it is seen that a watch is met on none of 128 days, of which the first is sought at an
/// index of the label's run. None of them is then missing.
pub fn is_passed(watch: Watch, run: LentRun<'_>, at: usize, day: i64) -> bool
    requires rising { IsRising run.days.now }
    requires numbers { AreBlocks run.blocks.now run.days.now }
    requires day { unsigned_abs day ≤ 2 ^ 62 + 2 ^ 32 }
    ensures { result ≡ true → IsPassed watch run.entry.days.now day }
{
    if at % BLOCK_DAYS != 0 {
        return false;
    }
    match run.blocks.get(at / BLOCK_DAYS) {
        Some(block) => cannot_meet(watch, *block) && stands_whole(run.days, at, day),
        None => false,
    }
}
