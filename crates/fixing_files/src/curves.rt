//! Curves: discount factors by offsets.

ghost use Rattle.std.specs.Prelude.{◌≡◌, ◌^◌, pos};
ghost use Rattle.term_model.specs.Factors.{IsCurve, IsFactor, discount_factor};
ghost use Rattle.fixing_files.specs.Curves.{AreNear, IsKept, rows_of};

use std::marker::Model;
use term_model::laws::curves_answer_factors;

// The factor of a day gone by: 1, in units of 10^-9.
const UNIT: i128 = 1_000_000_000;

/// A row of a curve: an offset in days and the factor from there on, in units of 10^-9.
#[derive(Clone, Copy)]
pub struct CurveStep {
    pub offset: u32,
    pub factor: i128,
}

/// Discount factors as a step function, seen as its list of rows. Their offsets rise from 0 and are
/// at most 2,000,000 days, and their factors are from 0 to 10, in units of 10^-9.
#[derive(Drop)]
pub struct Curve {
    pub(crate) steps: Vec<CurveStep>,
}

impl Model for Curve {
    ghost use Rattle.std.specs.Prelude.{List};
    ghost use Rattle.term_model.specs.Factors.{CurveRow};
    ghost use Rattle.fixing_files.specs.Curves.{IsKept, rows_of};

    ghost Value = { List CurveRow };

    ghost view = { λ c. rows_of c.steps.items };

    ghost invariant = { λ c. IsKept (rows_of c.steps.items) };
}

// The factor of the last row at or below an offset, or 1 where no row is.
fn factor_at(steps: &[CurveStep], offset: i64) -> i128
    requires { IsKept (rows_of steps.now) }
    ensures { result ≡ discount_factor (rows_of steps.now) (pos (10 ^ 9)) offset }
{
    let behind = steps.partition_point(|step| step.offset as i64 <= offset);
    if behind == 0 {
        UNIT
    } else {
        steps[behind - 1].factor
    }
}

impl Curve {
    /// The factor of the greatest offset of a row at or below `offset`, and 10^9 for a negative
    /// one: 1, for a day gone by. The row is sought by halving. It takes no memory.
    pub fn at(&self, offset: i64) -> i128
        ensures factor { result ≡ discount_factor self.now (pos (10 ^ 9)) offset }
        ensures within { IsFactor result }
    {
        curves_answer_factors();
        factor_at(&self.steps, offset)
    }

    /// A law: the rows of a curve are those of a step function, and none is past the limit of
    /// offsets.
    pub fn rises(&self)
        ensures curve { IsCurve self.now }
        ensures near { AreNear self.now }
    {
        let _ = &self.steps;
    }
}
