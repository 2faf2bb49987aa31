//! Fixings: values by places.

ghost use Rattle.std.specs.Prelude.{◌≡◌, ◌<◌, ℕ, [], OnErr, OnOk, vec_len};
ghost use Rattle.term_model.specs.Declarations.{declarations};
ghost use Rattle.term_model.specs.Environments.{IsAdmitted, IsValueOf, held, label_of};
ghost use Rattle.fixing_files.specs.Blocks.{AreBlocks};
ghost use Rattle.fixing_files.specs.Records.{IsFixingDay};
ghost use Rattle.fixing_files.specs.Runs.{AddsPair, AddsUnlessHeld, AreRising, IsRising, LendsDays, run_at, values_of};

use crate::blocks::{Block, LentRun, blocks_lent, drop_blocks};
use crate::runs::{FixedDay, search, value_on};
use decimal::NoMemory;
use std::alloc::Global;
use std::marker::Model;
use term_model::{Decls, Value};

/// What was observed: a finite map from places, each a label and a day, to values. It is kept as a
/// run of days for each label, with blocks of days so that a search may pass over many at once.
#[derive(Drop)]
pub struct Fixings {
    pub(crate) alloc: Global,
    pub(crate) runs: Vec<Vec<FixedDay>>,
    pub(crate) blocks: Vec<Vec<Block>>,
}

impl Model for Fixings {
    ghost use Rattle.term_model.specs.Environments.{Environment};

    ghost Value = { Environment };

    ghost use Rattle.fixing_files.specs.Blocks.{AreBlocksOf};
    ghost use Rattle.fixing_files.specs.Runs.{AreRising, values_of};

    ghost view = { λ f. values_of f.runs.items };

    ghost invariant = { λ f. AreRising f.runs.items × AreBlocksOf f.blocks.items f.runs.items };
}

// Makes runs without days up to the run of a label.
fn reach(alloc: Global, runs: &mut Vec<Vec<FixedDay>>, label: usize) -> Result<(), NoMemory>
    requires { AreRising runs.old.items }
    ensures rising { AreRising runs.new.items }
    ensures runs { (l : ℕ) → run_at runs.new.items l ≡ run_at runs.old.items l }
    ensures same { values_of runs.new.items ≡ values_of runs.old.items }
    ensures reached { OnOk result (label < vec_len runs.new) }
{
    while runs.len() <= label {
        runs.push(Vec::new(alloc))?;
    }
    Ok(())
}

// The run of a label.
fn run_lent(runs: &[Vec<FixedDay>], label: usize) -> &[FixedDay]
    ensures { result.now ≡ run_at runs.now label }
{
    match runs.get(label) {
        Some(run) => run,
        None => &[],
    }
}

impl Fixings {
    /// No fixings. It takes no memory.
    pub fn none(alloc: Global) -> Fixings
        ensures { result ≡ [] }
    {
        Fixings {
            alloc,
            runs: Vec::new(alloc),
            blocks: Vec::new(alloc),
        }
    }

    /// The value at a label, by its number among the declared ones, on a day of the portfolio; none
    /// exactly where the place is not fixed. It takes no memory.
    pub fn get(&self, label: u32, day: i64) -> Option<Value>
        ensures { result ≡ held self.now (record { label = label; day = day }) }
    {
        value_on(self.days_of(label), day)
    }

    /// The days on which a label is fixed, in rising order, each with its value. It takes no
    /// memory.
    pub fn days_of(&self, label: u32) -> &[FixedDay]
        ensures rising { IsRising result.now }
        ensures days { LendsDays self.now label result.now }
    {
        run_lent(&self.runs, label as usize)
    }

    /// The same days, with their blocks. It takes no memory.
    pub fn run_of(&self, label: u32) -> LentRun<'_>
        ensures rising { IsRising result.days.now }
        ensures days { LendsDays self.now label result.days.now }
        ensures blocks { AreBlocks result.blocks.now result.days.now }
    {
        LentRun {
            days: run_lent(&self.runs, label as usize),
            blocks: blocks_lent(&self.blocks, label as usize),
        }
    }

    // Fixes a value at a place that is not fixed yet.
    fn insert(&mut self, label: u32, day: i64, value: Value) -> Result<(), NoMemory>
        requires absent { held self.old (record { label = label; day = day }) ≡ None }
        ensures added { OnOk result (AddsPair self.old self.new
            (record { label = label; day = day }) value) }
        ensures kept { OnErr result (self.new ≡ self.old) }
    {
        reach(self.alloc, &mut self.runs, label as usize)?;
        drop_blocks(&mut self.blocks, label as usize);
        let run = &mut self.runs[label as usize];
        let Err(at) = search(run, day) else {
            return Ok(());
        };
        run.insert(at, FixedDay { day, value })?;
        Ok(())
    }

    /// Fixes a value at a place that is not fixed yet: a declared label, by its number, and a day
    /// from 3,000,000 before the origin to 3,000,000 after it. The value lies within the label's
    /// declaration.
    pub fn put(&mut self, decls: &Decls, label: u32, day: i64, value: Value) -> Result<(), NoMemory>
        requires day { IsFixingDay day }
        requires value { IsValueOf (label_of (declarations decls.now) label) value }
        requires absent { held self.old (record { label = label; day = day }) ≡ None }
        ensures added { OnOk result (AddsPair self.old self.new
            (record { label = label; day = day }) value) }
        ensures kept { OnErr result (self.new ≡ self.old) }
        ensures admitted { OnOk result (IsAdmitted (declarations decls.now) self.old
            → IsAdmitted (declarations decls.now) self.new) }
    {
        self.insert(label, day, value)
    }

    // Fixes a value at a label, by its number, on a day, unless the place is fixed already.
    pub(crate) fn add(&mut self, label: u32, day: i64, value: Value) -> Result<(), NoMemory>
        ensures added { OnOk result (AddsUnlessHeld self.old self.new
            (record { label = label; day = day }) value) }
        ensures kept { OnErr result (self.new ≡ self.old) }
    {
        match self.get(label, day) {
            Some(_) => Ok(()),
            None => self.insert(label, day, value),
        }
    }
}
