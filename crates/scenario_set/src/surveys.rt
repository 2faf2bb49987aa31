//! What is asked in the scenarios of a set.

ghost use Rattle.std.specs.Prelude.{◌≤◌, ◌<◌, ◌^◌, length};

use crate::scenarios::Scenario;
use fixing_files::{Curve, Fixings};
use payoff_terms::CodeFile;
use term_model::Setting;

/// What is asked of a code file: at a setting, by a curve, on a day, between parties in an asset.
#[derive(Clone, Copy)]
pub struct Asking<'a> {
    pub file: &'a CodeFile,
    pub setting: &'a Setting,
    pub curve: &'a Curve,
    pub at: i64,
    pub from: u32,
    pub to: u32,
    pub asset: u32,
}

/// What is asked, and the scenarios in which it is asked: what holds in all of them, laid out once,
/// and the rows of each, which are laid over it. There are scenarios, with numbers of 32 bits.
#[derive(Clone, Copy)]
pub struct Survey<'a> {
    pub asking: &'a Asking<'a>,
    pub common: &'a Fixings,
    pub each: &'a [Scenario],
    pub ghost some: { 1 ≤ length each.now },
    pub ghost numbered: { length each.now < 2 ^ 32 },
}
