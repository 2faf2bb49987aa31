//! The words and marks of operators.

ghost use Rattle.std.specs.Prelude.{◌≡◌};
ghost use Rattle.contract_print.specs.TermTexts.{comparison_text, connective_text, mode_text, operation_head, operation_text};

use decimal::Mode;
use term_model::{CmpOp, LogicOp, NumOp};

/// The word of a mode.
pub fn mode_word(mode: Mode) -> &'static [u8]
    ensures { result.now ≡ mode_text mode }
{
    match mode {
        Mode::HalfEven => b"half_even",
        Mode::HalfAway => b"half_away",
        Mode::Floor => b"floor",
        Mode::Ceil => b"ceil",
    }
}

/// A comparison between its operands.
pub fn comparison_mark(op: CmpOp) -> &'static [u8]
    ensures { result.now ≡ comparison_text op }
{
    match op {
        CmpOp::Less => b" < ",
        CmpOp::LessEq => b" <= ",
        CmpOp::Greater => b" > ",
        CmpOp::GreaterEq => b" >= ",
        CmpOp::Equal => b" = ",
        CmpOp::Unequal => b" != ",
    }
}

/// A connective between its operands.
pub fn connective_mark(op: LogicOp) -> &'static [u8]
    ensures { result.now ≡ connective_text op }
{
    match op {
        LogicOp::And => b" & ",
        LogicOp::Or => b" | ",
    }
}

/// What stands before the operands of an operation.
pub fn operation_opening(op: NumOp) -> &'static [u8]
    ensures { result.now ≡ operation_head op }
{
    match op {
        NumOp::Plus => b"(",
        NumOp::Minus => b"(",
        NumOp::Times => b"(",
        NumOp::Min => b"min(",
        NumOp::Max => b"max(",
    }
}

/// What stands between the operands of an operation.
pub fn operation_mark(op: NumOp) -> &'static [u8]
    ensures { result.now ≡ operation_text op }
{
    match op {
        NumOp::Plus => b" + ",
        NumOp::Minus => b" - ",
        NumOp::Times => b" * ",
        NumOp::Min => b", ",
        NumOp::Max => b", ",
    }
}
