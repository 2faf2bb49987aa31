//! Blocks: the least and the greatest number of 128 days of a run that stand together.

ghost use Rattle.std.specs.Prelude.{◌≡◌, [], IfOk};
ghost use Rattle.fixing_files.specs.Blocks.{AreBlocks, AreBlocksOf, AreKept, IsBlockOf, blocks_at};

use crate::runs::FixedDay;
use decimal::NoMemory;
use std::alloc::Global;

/// The days of a block.
pub const BLOCK_DAYS: usize = 128;

/// The least and the greatest number of the days of a block.
#[derive(Clone, Copy, Debug, PartialEq, Eq)]
pub struct Block {
    pub low: i128,
    pub high: i128,
}

/// The days of a label in rising order, each with its value, and the blocks of these days from the
/// first on. Blocks may be missing at the end.
#[derive(Clone, Copy)]
pub struct LentRun<'a> {
    pub days: &'a [FixedDay],
    pub blocks: &'a [Block],
}

// A block that holds the numbers of some days.
fn block_of(days: &[FixedDay]) -> Block
    ensures { IsBlockOf days.now result }
{
    let mut low = i128::MAX;
    let mut high = i128::MIN;
    for fixed in days {
        let number = fixed.value.number();
        low = low.min(number);
        high = high.max(number);
    }
    Block { low, high }
}

// The blocks of a run. Days that fill no block have none.
fn blocks_of(alloc: Global, run: &[FixedDay]) -> Result<Vec<Block>, NoMemory>
    ensures { IfOk result (λ blocks. AreBlocks blocks.items run.now) }
{
    let mut blocks = Vec::new(alloc);
    for at in 0..run.len() / BLOCK_DAYS {
        let first = at * BLOCK_DAYS;
        blocks.push(block_of(&run[first..first + BLOCK_DAYS]))?;
    }
    Ok(blocks)
}

/// The blocks of the runs of all labels.
pub fn blocks_of_all(alloc: Global, runs: &[Vec<FixedDay>]) -> Result<Vec<Vec<Block>>, NoMemory>
    ensures { IfOk result (λ blocks. AreBlocksOf blocks.items runs.now) }
{
    let mut blocks = Vec::new(alloc);
    for run in runs {
        blocks.push(blocks_of(alloc, run)?)?;
    }
    Ok(blocks)
}

/// Drops the blocks of a label, whose days are about to change.
pub fn drop_blocks(blocks: &mut Vec<Vec<Block>>, label: usize)
    ensures dropped { blocks_at blocks.new.items label ≡ [] }
    ensures kept { AreKept blocks.old.items blocks.new.items label }
{
    if label < blocks.len() {
        blocks[label].clear();
    }
}

/// The blocks of a label.
pub fn blocks_lent(blocks: &[Vec<Block>], label: usize) -> &[Block]
    ensures { result.now ≡ blocks_at blocks.now label }
{
    match blocks.get(label) {
        Some(of_label) => of_label,
        None => &[],
    }
}
