//! What was said so far at each place, as far as a further row could contradict it.

ghost use Rattle.std.specs.Prelude.{◌≡◌, OnOk};
ghost use Rattle.fixing_files.specs.Steps.{place_of};
ghost use Rattle.scenario_set.specs.Watches.{Adds, IsUnseen, TakesMention, clash_in, earlier};
ghost use Rattle.scenario_set.specs.Watches.{group_of, spot_of, told_at};

use crate::mentions::Mention;
use decimal::NoMemory;
use fixing_files::Place;
use std::alloc::Global;
use std::collections::BTreeMap;
use term_model::Value;

/// Rows of a place: all of them, those that hold in each scenario, or those of one scenario, by its
/// number.
#[derive(Clone, Copy, PartialEq, Eq, PartialOrd, Ord, Drop)]
pub enum Group {
    All,
    Each,
    Of(usize),
}

/// A group of rows of a place.
#[derive(Clone, Copy, PartialEq, Eq, PartialOrd, Ord, Drop)]
pub struct Spot {
    pub group: Group,
    pub label: u32,
    pub day: i64,
}

/// Of each group of rows the two that tell: the first, and the first with another value than it,
/// which few groups have.
#[derive(Drop)]
pub struct Watch {
    pub first: BTreeMap<Spot, Mention>,
    pub other: BTreeMap<Spot, Mention>,
}

impl Spot {
    // The spot of a group at a place.
    fn new(group: Group, place: Place) -> Spot
        ensures { result ≡ spot_of group (place_of place) }
    {
        Spot {
            group,
            label: place.label,
            day: place.day,
        }
    }
}

// The group of the rows of one scenario, or of those that hold in each.
fn group_of(own: Option<usize>) -> Group
    ensures { result ≡ group_of own }
{
    match own {
        Some(i) => Group::Of(i),
        None => Group::Each,
    }
}

// The row of the lesser number.
fn earlier(one: Option<Mention>, other: Option<Mention>) -> Option<Mention>
    ensures { result ≡ earlier one other }
{
    match (one, other) {
        (Some(a), Some(b)) if a.number <= b.number => Some(a),
        (Some(_), Some(b)) => Some(b),
        (Some(a), None) => Some(a),
        (None, _) => other,
    }
}

impl Watch {
    /// No row yet.
    pub fn new(alloc: Global) -> Watch
        ensures { IsUnseen result }
    {
        Watch {
            first: BTreeMap::new(alloc),
            other: BTreeMap::new(alloc),
        }
    }

    // The first row of a group at a place that says another value: of the two rows that are kept
    // the one that tells.
    fn told_at(&self, group: Group, place: Place, value: Value) -> Option<Mention>
        ensures { result ≡ told_at self.now group (place_of place) value }
    {
        let spot = Spot::new(group, place);
        match self.first.get(&spot).copied() {
            Some(first) if !first.says(value) => Some(first),
            Some(_) => self.other.get(&spot).copied(),
            None => None,
        }
    }

    /// The first row that a further row contradicts, if it has this value at this place, and holds
    /// in one scenario, or in each.
    pub fn clash(&self, own: Option<usize>, place: Place, value: Value) -> Option<Mention>
        ensures { result ≡ clash_in self.now own (place_of place) value }
    {
        match own {
            Some(i) => earlier(
                self.told_at(Group::Of(i), place, value),
                self.told_at(Group::Each, place, value),
            ),
            None => self.told_at(Group::All, place, value),
        }
    }

    // Takes a row of a group.
    fn add(&mut self, spot: Spot, row: Mention) -> Result<(), NoMemory>
        ensures { OnOk result (Adds self.old self.new spot row) }
    {
        match self.first.get(&spot).copied() {
            None => {
                self.first.insert(spot, row)?;
            }
            Some(first) if !row.says(first.value) && !self.other.contains_key(&spot) => {
                self.other.insert(spot, row)?;
            }
            Some(_) => {}
        }
        Ok(())
    }

    /// Takes a row of one scenario, or one that holds in each.
    pub fn take(&mut self, own: Option<usize>, place: Place, row: Mention) -> Result<(), NoMemory>
        ensures { OnOk result (TakesMention self.old self.new own (place_of place) row) }
    {
        self.add(Spot::new(group_of(own), place), row)?;
        self.add(Spot::new(Group::All, place), row)
    }
}
