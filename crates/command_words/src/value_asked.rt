//! What `value` is asked for.

ghost use Rattle.command_words.specs.Commands.{AreSettings};

use crate::day_words::DayWord;
use indexmap::IndexMap;
use term_model::Name;

/// The files of `value`: payoff code, fixings and discount factors.
#[derive(Clone, Copy)]
pub struct ValueFiles<'a> {
    pub code: &'a str,
    pub fixings: &'a str,
    pub curve: &'a str,
}

/// From which party to which, and in which asset.
#[derive(Clone, Copy)]
pub struct Between<'a> {
    pub from: &'a str,
    pub to: &'a str,
    pub asset: &'a str,
}

/// What a code file is worth on a day, between two parties, at the numbers that are set for its
/// templates.
#[derive(Drop)]
pub struct Value<'a> {
    pub files: ValueFiles<'a>,
    pub at: DayWord<'a>,
    pub between: Between<'a>,
    pub settings: IndexMap<Name, u32>,
    pub ghost few: { AreSettings settings.entries },
}
