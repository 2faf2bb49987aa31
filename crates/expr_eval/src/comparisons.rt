//! Comparisons of two numbers of any scales: each is multiplied so that both have one scale.

ghost use Rattle.std.specs.Prelude.{◌≡◌, ◌≤◌, ◌*ℤ◌};
ghost use Rattle.term_model.specs.Values.{cmp_op};
ghost use Rattle.interval_check.specs.Safety.{IsSmall};
ghost use Rattle.expr_eval.specs.Comparing as found;

use crate::operations::compare_aligned;
use decimal::pow10;
use term_model::CmpOp;

/// By what the numbers of two sides are multiplied, so that they have one scale.
#[derive(Clone, Copy)]
pub struct Factors {
    pub left: i128,
    pub right: i128,
}

/// The factors of two scales.
pub fn factors_of(i: u8, j: u8) -> Factors
    requires left { i ≤ 27 }
    requires right { j ≤ 27 }
    ensures { result ≡ found.factors i j }
{
    let most = i.max(j);
    Factors {
        left: pow10(most - i),
        right: pow10(most - j),
    }
}

// A number times its factor.
fn brought(x: i128, factor: i128) -> i128
    requires { IsSmall (x *ℤ factor) }
    ensures { result ≡ x *ℤ factor }
{
    x * factor
}

/// A comparison of two numbers that are brought to one scale.
pub fn compare_brought(op: CmpOp, x: i128, y: i128, by: Factors) -> bool
    requires left { IsSmall (x *ℤ by.left) }
    requires right { IsSmall (y *ℤ by.right) }
    ensures { result ≡ cmp_op op (x *ℤ by.left) (y *ℤ by.right) }
{
    let x = brought(x, by.left);
    let y = brought(y, by.right);
    compare_aligned(op, x, y)
}
