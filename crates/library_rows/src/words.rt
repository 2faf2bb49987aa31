//! The words of a call.

ghost use Rattle.std.specs.Prelude.{◌≡◌, ◌≤◌, ◌≤ℤ◌, ◌^◌, IfOk, pos, true, unsigned_abs};
ghost use Rattle.term_model.specs.Limits.{is_a_version, last_start};

use row_language::{RowErr, count};
use term_model::LAST_START;

/// A call on an accepted contract over fixings, on a day.
#[derive(Clone, Copy)]
pub enum DayCall {
    Eval,
    SpecialiseContr,
    SpecialiseExpr,
    SpecialiseUnknown,
    Step,
    Carry,
    Advance,
}

/// A call on a contract alone.
#[derive(Clone, Copy)]
pub enum ContractCall {
    Check,
    Counts,
    Rename,
    Simplify,
}

/// A call.
#[derive(Clone, Copy)]
pub enum Call {
    PrintPortfolio,
    PrintDecls,
    ParseDecls,
    OnContract(ContractCall),
    OnDay(DayCall),
    Compile,
    Cut,
    ValueScratch,
    Fixings,
}

// The call of a name, of those on a day.
fn day_call(name: &str) -> Result<DayCall, RowErr> {
    match name {
        "eval" => Ok(DayCall::Eval),
        "specialise_contr" => Ok(DayCall::SpecialiseContr),
        "specialise_expr" => Ok(DayCall::SpecialiseExpr),
        "specialise_unknown" => Ok(DayCall::SpecialiseUnknown),
        "step" => Ok(DayCall::Step),
        "carry" => Ok(DayCall::Carry),
        "advance" => Ok(DayCall::Advance),
        _ => Err(RowErr::NoCall),
    }
}

/// The call of a name.
pub fn call_of(name: &str) -> Result<Call, RowErr> {
    match name {
        "print_portfolio" => Ok(Call::PrintPortfolio),
        "print_decls" => Ok(Call::PrintDecls),
        "parse_decls" => Ok(Call::ParseDecls),
        "check" => Ok(Call::OnContract(ContractCall::Check)),
        "counts" => Ok(Call::OnContract(ContractCall::Counts)),
        "rename" => Ok(Call::OnContract(ContractCall::Rename)),
        "simplify" => Ok(Call::OnContract(ContractCall::Simplify)),
        "compile" => Ok(Call::Compile),
        "cut" => Ok(Call::Cut),
        "value_scratch" => Ok(Call::ValueScratch),
        "fixings" => Ok(Call::Fixings),
        _ => Ok(Call::OnDay(day_call(name)?)),
    }
}

/// A day on which a contract can stand.
pub fn frame(word: &str) -> Result<i64, RowErr>
    ensures first { IfOk result (λ day. pos 0 ≤ℤ day) }
    ensures last { IfOk result (λ day. day ≤ℤ pos last_start) }
    ensures near { IfOk result (λ day. unsigned_abs day ≤ 10 ^ 12) }
{
    let day = count(word)?;
    if day > LAST_START {
        return Err(RowErr::Range);
    }
    Ok(day as i64)
}

/// A version of portfolios.
pub fn version(word: &str) -> Result<u8, RowErr>
    ensures { IfOk result (λ version. is_a_version version ≡ true) }
{
    match word {
        "1" => Ok(1),
        "2" => Ok(2),
        _ => Err(RowErr::Range),
    }
}
