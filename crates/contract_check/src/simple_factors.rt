//! Factors of simple contracts: a literal, and what is observed times a literal, rounded, as in a
//! floating payment. Neither has a name in it, and both are known on the day on which they stand.

ghost use Rattle.std.specs.Prelude.{◌≡◌, ◌<◌, ◌≤◌, ◌^◌, ◌*ℤ◌, unsigned_abs, IfSome};
ghost use Rattle.decimal.specs.Rounding.{at_scale};
ghost use Rattle.term_model.specs.declared.terms.NumOp.TheVariants.{Times};
ghost use Rattle.term_model.specs.Declarations.{declarations};
ghost use Rattle.term_model.specs.Terms.{expression, Lit, Num, Obs, Round};
ghost use Rattle.contract_check.specs.SimpleFactors.{IsFactor, IsGreatest};

use decimal::{Mode, is_mantissa, round_to};
use term_model::{Decls, Expr, Label, NumOp};

/// The greatest total, and factor, that is measured. With the decimals of the factors round it, of
/// which there are at most nine, a total is at most 10^27, as the rule on bounds asks.
pub const GREATEST_TOTAL: u64 = 1_000_000_000_000_000_000;

/// The most decimals that the factors round a part may have together.
pub const MOST_DECIMALS: u8 = 9;

// How many days before its own a factor may be observed. With a reach of 100,000 these are
// 1,000,000 at most, as the rule on sizes asks.
const MOST_PAST: i32 = 900_000;

/// What is measured of a factor: its height, its nodes, its decimals, and its greatest size in units
/// of these.
#[derive(Clone, Copy)]
pub struct Factor {
    pub height: u32,
    pub nodes: u32,
    pub scale: u8,
    pub size: u64,
}

// Of a literal.
fn literal(_decls: &Decls, mant: i128, scale: u8) -> Option<Factor>
    ensures { IfSome result (λ f. IsFactor (declarations _decls.now) (Lit mant scale) f) }
{
    let size = mant.unsigned_abs();
    if size > GREATEST_TOTAL as u128 || scale > MOST_DECIMALS {
        return None;
    }
    Some(Factor {
        height: 1,
        nodes: 1,
        scale,
        size: size as u64,
    })
}

// The product, where it is a mantissa.
fn product(a: i128, b: i128) -> Option<i128>
    ensures value { IfSome result (λ m. m ≡ a *ℤ b) }
    ensures small { IfSome result (λ m. unsigned_abs m ≤ 10 ^ 37) }
{
    let m = a.checked_mul(b)?;
    if is_mantissa(m) { Some(m) } else { None }
}

// The size of a number that is rounded to fewer decimals.
fn rounded_size(mode: Mode, m: i128, from: u8, to: u8) -> u128
    requires small { unsigned_abs m ≤ 10 ^ 37 }
    requires from { from ≤ 27 }
    requires lower { to < from }
    ensures { result ≡ unsigned_abs (at_scale mode m from to) }
{
    round_to(mode, m, from, to).unsigned_abs()
}

// The greatest size of the product of a number within bounds and another one, rounded.
fn greatest_product(mode: Mode, low: i128, high: i128, mant: i128, from: u8, to: u8) -> Option<u64>
    requires from { from ≤ 27 }
    requires lower { to < from }
    ensures { IfSome result (λ size. IsGreatest mode
        (record { low = low; high = high }) mant from to size) }
{
    let by_low = product(low, mant)?;
    let by_high = product(high, mant)?;
    let one = rounded_size(mode, by_low, from, to);
    let other = rounded_size(mode, by_high, from, to);
    let size = one.max(other);
    if size <= GREATEST_TOTAL as u128 {
        Some(size as u64)
    } else {
        None
    }
}

// Of what is observed times a literal, rounded to fewer decimals.
fn rounded_product(
    decls: &Decls,
    mode: Mode,
    scale: u8,
    label: u32,
    offset: i32,
    mant: i128,
    own: u8,
) -> Option<Factor>
    ensures { IfSome result (λ f. IsFactor (declarations decls.now)
        (Round mode scale (Num Times (Obs label offset) (Lit mant own))) f) }
{
    let Some(
        Label::Number {
            scale: declared,
            low,
            high,
        },
    ) = decls.label(label)
    else {
        return None;
    };
    if offset > 0 || offset < -MOST_PAST || !is_mantissa(low) || !is_mantissa(high) {
        return None;
    }
    if !is_mantissa(mant) || own > 27 || declared > 27 - own || scale > MOST_DECIMALS {
        return None;
    }
    if scale >= declared + own {
        return None;
    }
    let size = greatest_product(mode, low, high, mant, declared + own, scale)?;
    Some(Factor {
        height: 3,
        nodes: 4,
        scale,
        size,
    })
}

// Of what is rounded.
fn rounded(decls: &Decls, mode: Mode, scale: u8, of: &Expr) -> Option<Factor>
    ensures { IfSome result (λ f. IsFactor (declarations decls.now)
        (Round mode scale (expression of.now)) f) }
{
    let Expr::Num {
        op: NumOp::Times,
        left,
        right,
    } = of
    else {
        return None;
    };
    match (&**left, &**right) {
        (Expr::Obs { label, offset }, Expr::Lit { mant, scale: own }) => {
            rounded_product(decls, mode, scale, *label, *offset, *mant, *own)
        }
        _ => None,
    }
}

/// What is measured of a factor of a simple contract. `None` says nothing of a factor.
pub fn factor_of(decls: &Decls, e: &Expr) -> Option<Factor>
    ensures { IfSome result (λ f. IsFactor (declarations decls.now) (expression e.now) f) }
{
    match e {
        Expr::Lit { mant, scale } => literal(decls, *mant, *scale),
        Expr::Round { mode, scale, of } => rounded(decls, *mode, *scale, of),
        _ => None,
    }
}
