//! Fixings in two layers.

ghost use Rattle.std.specs.Prelude.{◌≡◌, ◌++◌, [], IfOk, IsTrue, OnErr, OnOk};
ghost use Rattle.term_model.specs.Environments.{held};
ghost use Rattle.fixing_files.specs.Layers.{AreInOrder, ComesBehind, HoldSame, entries_held};
ghost use Rattle.fixing_files.specs.Runs.{AddsUnlessHeld};
ghost use Rattle.fixing_files.specs.Steps.{place_of};

use crate::fixings::Fixings;
use crate::records::Place;
use decimal::NoMemory;
use std::alloc::Global;
use std::cmp::Ordering;
use std::collections::BTreeMap;
use std::marker::Model;
use term_model::Value;

/// Fixings of a few places. They are kept in the order of places and not by labels, so they take
/// memory for what is fixed alone: places that come in this order in a list, the others in a map.
#[derive(Drop)]
pub struct FewFixings {
    risen: Vec<(Place, Value)>,
    others: BTreeMap<Place, Value>,
}

impl Model for FewFixings {
    ghost use Rattle.term_model.specs.Environments.{Environment};

    ghost Value = { Environment };

    ghost use Rattle.std.specs.Prelude.{◌++◌};
    ghost use Rattle.fixing_files.specs.Layers.{AreInOrder, entries_held};

    ghost view = { λ f. entries_held f.risen.items ++ entries_held f.others.entries };

    ghost invariant = { λ f. AreInOrder f.risen.items };
}

// The value at a place, of places in their order.
fn value_at(risen: &[(Place, Value)], place: Place) -> Option<Value>
    requires { AreInOrder risen.now }
    ensures { result ≡ held (entries_held risen.now) (place_of place) }
{
    match risen.binary_search_by_key(&place, |entry| entry.0) {
        Ok(at) => Some(risen[at].1),
        Err(_) => None,
    }
}

// Whether a place comes behind places in their order.
fn is_behind(risen: &[(Place, Value)], place: Place) -> bool
    ensures { IsTrue result → ComesBehind risen.now place }
{
    match risen.last() {
        Some(last) => last.0.cmp(&place) == Ordering::Less,
        None => true,
    }
}

// Fixes a value at a place, unless the place is fixed already.
fn add_entry(fixings: &mut Fixings, place: Place, value: Value) -> Result<(), NoMemory>
    ensures { OnOk result (AddsUnlessHeld fixings.old fixings.new (place_of place) value) }
{
    fixings.add(place.label, place.day, value)
}

// What places in their order and the places of a map hold, in one map. Where both hold a place, the
// first count.
fn joined(
    risen: &[(Place, Value)],
    others: BTreeMap<Place, Value>,
) -> Result<BTreeMap<Place, Value>, NoMemory>
    requires { AreInOrder risen.now }
    ensures { IfOk result (λ all. HoldSame (entries_held all.entries)
        (entries_held risen.now ++ entries_held others.entries)) }
{
    let mut all = others;
    for entry in risen {
        all.insert(entry.0, entry.1)?;
    }
    Ok(all)
}

impl FewFixings {
    /// No fixings. It takes no memory.
    pub fn none(alloc: Global) -> FewFixings
        ensures { result ≡ [] }
    {
        FewFixings {
            risen: Vec::new(alloc),
            others: BTreeMap::new(alloc),
        }
    }

    // The value at a place.
    fn get(&self, place: Place) -> Option<Value>
        ensures { result ≡ held self.now (place_of place) }
    {
        match value_at(&self.risen, place) {
            Some(value) => Some(value),
            None => self.others.get(&place).copied(),
        }
    }

    /// Fixes a value at a place, unless the place is fixed already.
    pub fn add(&mut self, place: Place, value: Value) -> Result<(), NoMemory>
        ensures added { OnOk result (AddsUnlessHeld self.old self.new (place_of place) value) }
        ensures kept { OnErr result (self.new ≡ self.old) }
    {
        if self.others.contains_key(&place) {
            return Ok(());
        }
        if is_behind(&self.risen, place) {
            self.risen.push((place, value))?;
        } else if value_at(&self.risen, place).is_none() {
            self.others.insert(place, value)?;
        }
        Ok(())
    }

    /// The same fixings by labels.
    pub fn by_labels(self, alloc: Global) -> Result<Fixings, NoMemory>
        ensures { IfOk result (λ fixings. HoldSame fixings self) }
    {
        let others = self.others;
        let all = joined(&self.risen, others)?;
        let mut fixings = Fixings::none(alloc);
        for (place, value) in all {
            add_entry(&mut fixings, place, value)?;
        }
        Ok(fixings)
    }
}

/// Fixings that are seen as one map: a few, where there are such, and others below them. Where both
/// fix a place, the few count.
#[derive(Drop)]
pub struct LayeredFixings<'a> {
    above: Option<&'a FewFixings>,
    below: &'a Fixings,
}

impl<'a> Model for LayeredFixings<'a> {
    ghost use Rattle.term_model.specs.Environments.{Environment};

    ghost Value = { Environment };

    ghost use Rattle.fixing_files.specs.Layers.{laid_over};

    ghost view = { λ f. laid_over f.above f.below.now };
}

// The value at a place.
fn get_at(fixings: &Fixings, place: Place) -> Option<Value>
    ensures { result ≡ held fixings.now (place_of place) }
{
    fixings.get(place.label, place.day)
}

// The value at a place, of the few or else of those below.
fn get_over(few: &FewFixings, below: &Fixings, place: Place) -> Option<Value>
    ensures { result ≡ held (few.now ++ below.now) (place_of place) }
{
    match few.get(place) {
        Some(value) => Some(value),
        None => get_at(below, place),
    }
}

impl<'a> LayeredFixings<'a> {
    /// Fixings as they are.
    pub fn of(fixings: &'a Fixings) -> LayeredFixings<'a>
        ensures { result ≡ fixings.now }
    {
        LayeredFixings {
            above: None,
            below: fixings,
        }
    }

    /// A few fixings over others. It takes no memory, and nothing is copied.
    pub fn over(few: &'a FewFixings, fixings: &'a Fixings) -> LayeredFixings<'a>
        ensures { result ≡ few.now ++ fixings.now }
    {
        LayeredFixings {
            above: Some(few),
            below: fixings,
        }
    }

    /// The value at a label, by its number among the declared ones, on a day of the portfolio; none
    /// exactly where the place is not fixed. It takes no memory.
    pub fn get(&self, label: u32, day: i64) -> Option<Value>
        ensures { result ≡ held self.now (record { label = label; day = day }) }
    {
        match self.above {
            Some(few) => get_over(few, self.below, Place { label, day }),
            None => self.below.get(label, day),
        }
    }
}
