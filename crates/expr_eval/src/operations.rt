//! Values with their kinds, and what each operator makes of those of its parts.

ghost use Rattle.std.specs.Prelude.{◌≡◌, ◌≤◌};
ghost use Rattle.term_model.specs.Kinds.{scale_of_kind, scale_of_op};
ghost use Rattle.term_model.specs.Values.{num_op, cmp_op, of_num};
ghost use Rattle.term_model.specs.Reads.{decides};
ghost use Rattle.interval_check.specs.Safety.{IsSmall, OperateSafely};
ghost use Rattle.expr_eval.specs.Operations as made;
ghost use Rattle.expr_eval.specs.Operations.{Negates, Combines, Compares, RoundsTo, DividesTo, FitsKind};

use decimal::{Mode, align, div_to, round_to};
use term_model::{CmpOp, Kind, LogicOp, NumOp, Value};

/// A value, and of what kind it is.
#[derive(Clone, Copy, Debug, PartialEq, Eq)]
pub struct Typed {
    pub kind: Kind,
    pub value: Value,
}

/// The values of two operands.
#[derive(Clone, Copy, Debug, PartialEq, Eq)]
pub struct Operands {
    pub left: Typed,
    pub right: Typed,
}

/// A number.
pub fn number(scale: u8, mant: i128) -> Typed
    ensures { result ≡ made.number scale mant }
{
    Typed {
        kind: Kind::Number { scale },
        value: Value::Num { mant },
    }
}

/// A truth value.
pub fn verdict(value: bool) -> Typed
    ensures { result ≡ made.verdict value }
{
    Typed {
        kind: Kind::Truth,
        value: Value::Truth { value },
    }
}

/// The decimals of an operator's value.
pub fn scale_of_both(op: NumOp, left: Kind, right: Kind) -> u8
    requires { scale_of_op op (scale_of_kind left) (scale_of_kind right) ≤ 27 }
    ensures { result ≡ scale_of_op op (scale_of_kind left) (scale_of_kind right) }
{
    match op {
        NumOp::Times => left.scale() + right.scale(),
        _ => left.scale().max(right.scale()),
    }
}

/// A value at a kind: a number at its decimals, which are no fewer.
pub fn at_kind(kind: Kind, of: Typed) -> Typed
    requires { FitsKind kind of }
    ensures { result ≡ made.at_kind kind of }
{
    let value = match of.value {
        Value::Num { mant } => Value::Num {
            mant: align(mant, of.kind.scale(), kind.scale()),
        },
        Value::Truth { value } => Value::Truth { value },
    };
    Typed { kind, value }
}

/// The negative.
pub fn negate(of: Typed) -> Typed
    requires { Negates of }
    ensures { result ≡ made.negated of }
{
    Typed {
        kind: of.kind,
        value: Value::Num {
            mant: -of.value.number(),
        },
    }
}

/// An operator on two numbers of one scale.
pub(crate) fn on_aligned(op: NumOp, x: i128, y: i128) -> i128
    requires x { IsSmall x }
    requires y { IsSmall y }
    requires outcome { IsSmall (num_op op x y) }
    ensures { result ≡ num_op op x y }
{
    match op {
        NumOp::Plus => x + y,
        NumOp::Minus => x - y,
        NumOp::Times => x * y,
        NumOp::Min => x.min(y),
        NumOp::Max => x.max(y),
    }
}

// An operator on a number of scale `i` and one of scale `j`.
fn operate(op: NumOp, i: u8, x: i128, j: u8, y: i128) -> i128
    requires left { i ≤ 27 }
    requires right { j ≤ 27 }
    requires fits { OperateSafely op i x j y }
    ensures { result ≡ of_num op i x j y }
{
    match op {
        NumOp::Times => on_aligned(op, x, y),
        _ => on_aligned(op, align(x, i, i.max(j)), align(y, j, i.max(j))),
    }
}

/// An operator on two numbers.
pub fn combine(op: NumOp, both: Operands) -> Typed
    requires { Combines op both.left both.right }
    ensures { result ≡ made.combined op both.left both.right }
{
    let left = both.left;
    let right = both.right;
    let mant = operate(
        op,
        left.kind.scale(),
        left.value.number(),
        right.kind.scale(),
        right.value.number(),
    );
    number(scale_of_both(op, left.kind, right.kind), mant)
}

/// A comparison of two numbers of one scale.
pub fn compare_aligned(op: CmpOp, x: i128, y: i128) -> bool
    ensures { result ≡ cmp_op op x y }
{
    match op {
        CmpOp::Less => x < y,
        CmpOp::LessEq => x <= y,
        CmpOp::Greater => x > y,
        CmpOp::GreaterEq => x >= y,
        CmpOp::Equal => x == y,
        CmpOp::Unequal => x != y,
    }
}

/// A comparison of two numbers.
pub fn compare(op: CmpOp, both: Operands) -> Typed
    requires { Compares both.left both.right }
    ensures { result ≡ made.compared op both.left both.right }
{
    let i = both.left.kind.scale();
    let j = both.right.kind.scale();
    let x = align(both.left.value.number(), i, i.max(j));
    let y = align(both.right.value.number(), j, i.max(j));
    verdict(compare_aligned(op, x, y))
}

/// Whether the left side decides.
pub fn is_decided(op: LogicOp, left: bool) -> bool
    ensures { result ≡ decides op left }
{
    match op {
        LogicOp::And => !left,
        LogicOp::Or => left,
    }
}

/// A number rounded to a scale.
pub fn round(mode: Mode, scale: u8, of: Typed) -> Typed
    requires { RoundsTo scale of }
    ensures { result ≡ made.rounded mode scale of }
{
    number(
        scale,
        round_to(mode, of.value.number(), of.kind.scale(), scale),
    )
}

/// A quotient at a scale.
pub fn divide(mode: Mode, scale: u8, both: Operands) -> Typed
    requires { DividesTo scale both.left both.right }
    ensures { result ≡ made.quotient mode scale both.left both.right }
{
    let top = both.left;
    let below = both.right;
    let mant = div_to(
        mode,
        top.value.number(),
        top.kind.scale(),
        below.value.number(),
        below.kind.scale(),
        scale,
    );
    number(scale, mant)
}
