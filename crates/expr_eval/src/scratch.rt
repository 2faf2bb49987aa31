//! What names are bound to, and the room in which it is kept.

ghost use Rattle.std.specs.Prelude.{◌≡◌, ◌∷◌, [], ◌≤◌, ◌<◌, ◌+◌, length, reverse, slice_get, IfOk};
ghost use Rattle.term_model.specs.Limits.{most_height};
ghost use Rattle.term_model.specs.Terms.{expression, contract};
ghost use Rattle.term_model.specs.Sizes.{height, height_of_contract};
ghost use Rattle.expr_eval.specs.Rooms.{IsWithoutFirst};
ghost use Rattle.expr_eval.specs.Answers.{held_of};

use crate::heights::height_of;
use decimal::NoMemory;
use std::alloc::Global;
use std::marker::Model;
use term_core::counts;
use term_model::{Contr, Expr, Kind, Missing, Value};

/// What a bound name holds: the value of its expression, or the first place that the expression
/// reads and that is not fixed.
#[derive(Clone, Copy, Debug, PartialEq, Eq)]
pub enum Held {
    Known { value: Value },
    Lacking { missing: Missing },
}

impl Held {
    /// What a name holds that is bound to an expression with this answer.
    pub fn of(answer: Result<Value, Missing>) -> Held
        ensures { result ≡ held_of answer }
    {
        match answer {
            Ok(value) => Held::Known { value },
            Err(missing) => Held::Lacking { missing },
        }
    }
}

/// The entry of a bound name: the kind of its expression, and what it holds.
#[derive(Clone, Copy, Debug, PartialEq, Eq)]
pub struct Binding {
    pub kind: Kind,
    pub held: Held,
}

/// The entries of the names that are bound around a place in a contract, innermost first, and how
/// many more have room.
#[derive(Drop)]
pub struct Scratch {
    // The innermost stands last.
    items: Vec<Binding>,
    spare: usize,
}

impl Model for Scratch {
    ghost use Rattle.expr_eval.specs.Rooms.{Room};
    ghost use Rattle.std.specs.Prelude.{reverse, vec_len, vec_capacity, ◌+◌, ◌≤◌};

    ghost Value = { Room };

    ghost view = { λ s. record { entries = reverse s.items.items; spare = s.spare } };

    ghost invariant = { λ s. vec_len s.items + s.spare ≤ vec_capacity s.items };
}

impl Scratch {
    /// No entries, with room for some.
    pub fn with_room(alloc: Global, spare: usize) -> Result<Scratch, NoMemory>
        ensures empty { IfOk result (λ s. s.entries ≡ []) }
        ensures spare { IfOk result (λ s. s.spare ≡ spare) }
    {
        let items = Vec::with_capacity(alloc, spare)?;
        Ok(Scratch { items, spare })
    }

    /// No entries, with room for as many as a contract can need.
    pub fn for_contract(alloc: Global, c: &Contr) -> Result<Scratch, NoMemory>
        requires low { height_of_contract (contract c.now) ≤ 1_000 }
        ensures empty { IfOk result (λ s. s.entries ≡ []) }
        ensures spare { IfOk result (λ s. height_of_contract (contract c.now) ≤ s.spare) }
    {
        Scratch::with_room(alloc, counts(c).height as usize)
    }

    /// No entries, with room for as many as an expression can need.
    pub fn for_expr(alloc: Global, e: &Expr) -> Result<Scratch, NoMemory>
        requires low { height (expression e.now) ≤ 1_000 }
        ensures empty { IfOk result (λ s. s.entries ≡ []) }
        ensures spare { IfOk result (λ s. height (expression e.now) ≤ s.spare) }
    {
        Scratch::with_room(alloc, height_of(e) as usize)
    }

    /// No entries, with room for as many as a term of that height can need. No accepted contract is
    /// higher than 200, so that room for 200 serves each of its parts and of what is left of it,
    /// and none of them is walked for it.
    pub fn for_height(alloc: Global, height: u32) -> Result<Scratch, NoMemory>
        requires low { height ≤ most_height }
        ensures empty { IfOk result (λ s. s.entries ≡ []) }
        ensures spare { IfOk result (λ s. height ≤ s.spare) }
    {
        Scratch::with_room(alloc, height as usize)
    }

    /// Enters a name: its entry is the innermost from now on. It takes no memory.
    pub fn enter(&mut self, kind: Kind, held: Held)
        requires { 1 ≤ self.old.spare }
        ensures entries { self.new.entries
            ≡ record { kind = kind; held = held } ∷ self.old.entries }
        ensures spare { self.new.spare + 1 ≡ self.old.spare }
    {
        match self.items.push(Binding { kind, held }) {
            Ok(()) => self.spare -= 1,
            Err(_) => unreachable!(),
        }
    }

    /// Leaves the innermost name. It takes no memory.
    pub fn leave(&mut self)
        requires { 1 ≤ length self.old.entries }
        ensures entries { IsWithoutFirst self.old.entries self.new.entries }
        ensures spare { self.new.spare ≡ self.old.spare + 1 }
    {
        let _ = self.items.pop();
        self.spare += 1;
    }

    /// The entry of the name that is bound `back` binders further out than the innermost.
    pub fn at(&self, back: usize) -> Option<Binding>
        ensures { result ≡ slice_get self.now.entries back }
    {
        at_end(self.items.as_slice(), back)
    }
}

// The element at a distance from the last.
fn at_end(items: &[Binding], back: usize) -> Option<Binding>
    ensures { result ≡ slice_get (reverse items.now) back }
{
    if back < items.len() {
        Some(items[items.len() - 1 - back])
    } else {
        None
    }
}
