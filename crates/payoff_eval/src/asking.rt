//! What a value is asked of.

ghost use Rattle.expr_eval.specs.Fits.{IsDay};

use fixing_files::{Curve, LayeredFixings};
use term_model::Decls;

/// The declarations, the setting, the fixings and the curve, the current day, from which days can
/// be counted, the pair and the asset.
#[derive(Clone, Copy)]
pub struct Asking<'a> {
    pub decls: &'a Decls,
    pub setting: &'a [u32],
    pub fixings: &'a LayeredFixings<'a>,
    pub curve: &'a Curve,
    pub today: i64,
    pub from: u32,
    pub to: u32,
    pub asset: u32,
    pub ghost is_day: { IsDay today },
}
