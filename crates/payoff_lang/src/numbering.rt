//! Value expressions as expressions whose dates stand in a list.

ghost use Rattle.std.specs.Prelude.{◌≡◌, IfOk, OnOk, length, pos};
ghost use Rattle.term_model.specs.Terms.{expression};
ghost use Rattle.payoff_terms.specs.Code.{value_expression};
ghost use Rattle.payoff_lang.specs.Numbered.{dates_lent, numbered, with_dates};

use decimal::NoMemory;
use payoff_terms::{DateExpr, Vx};
use std::alloc::Global;
use term_model::Expr;

// The index of the next date. An offset has room for 2^31 of them: where one expression has more,
// memory is wanting.
fn next_index(dates: &[&DateExpr]) -> Result<i32, NoMemory>
    ensures { IfOk result (λ index. index ≡ pos (length dates.now)) }
{
    i32::try_from(dates.len()).map_err(|_| NoMemory)
}

/// The expression of a value expression, in which each observable has the index of its date for an
/// offset. The dates are lent to the list, behind those that stand there.
pub fn number_dates<'a>(
    alloc: Global,
    v: &'a Vx,
    dates: &mut Vec<&'a DateExpr>,
) -> Result<Expr, NoMemory>
    ensures expression { IfOk result
        (λ e. expression e ≡ numbered (dates_lent dates.old.items) (value_expression v.now)) }
    ensures dates { OnOk result (dates_lent dates.new.items
        ≡ with_dates (dates_lent dates.old.items) (value_expression v.now)) }
{
    match v {
        Vx::Lit { mant, scale } => Ok(Expr::Lit {
            mant: *mant,
            scale: *scale,
        }),
        Vx::Yes { value } => Ok(Expr::Yes { value: *value }),
        Vx::Var { back } => Ok(Expr::Var { back: *back }),
        Vx::Model { label, date } => {
            let offset = next_index(dates)?;
            dates.push(date)?;
            Ok(Expr::Obs {
                label: *label,
                offset,
            })
        }
        Vx::Neg { of } => {
            let of = Box::new(alloc, number_dates(alloc, of, dates)?)?;
            Ok(Expr::Neg { of })
        }
        Vx::Num { op, left, right } => {
            let left = Box::new(alloc, number_dates(alloc, left, dates)?)?;
            let right = Box::new(alloc, number_dates(alloc, right, dates)?)?;
            Ok(Expr::Num {
                op: *op,
                left,
                right,
            })
        }
        Vx::Cmp { op, left, right } => {
            let left = Box::new(alloc, number_dates(alloc, left, dates)?)?;
            let right = Box::new(alloc, number_dates(alloc, right, dates)?)?;
            Ok(Expr::Cmp {
                op: *op,
                left,
                right,
            })
        }
        Vx::Not { of } => {
            let of = Box::new(alloc, number_dates(alloc, of, dates)?)?;
            Ok(Expr::Not { of })
        }
        Vx::Logic { op, left, right } => {
            let left = Box::new(alloc, number_dates(alloc, left, dates)?)?;
            let right = Box::new(alloc, number_dates(alloc, right, dates)?)?;
            Ok(Expr::Logic {
                op: *op,
                left,
                right,
            })
        }
        Vx::Cond { test, yes, no } => {
            let test = Box::new(alloc, number_dates(alloc, test, dates)?)?;
            let yes = Box::new(alloc, number_dates(alloc, yes, dates)?)?;
            let no = Box::new(alloc, number_dates(alloc, no, dates)?)?;
            Ok(Expr::Cond { test, yes, no })
        }
        Vx::Widen { scale, of } => {
            let of = Box::new(alloc, number_dates(alloc, of, dates)?)?;
            Ok(Expr::Widen { scale: *scale, of })
        }
        Vx::Round { mode, scale, of } => {
            let of = Box::new(alloc, number_dates(alloc, of, dates)?)?;
            Ok(Expr::Round {
                mode: *mode,
                scale: *scale,
                of,
            })
        }
        Vx::Div {
            mode,
            scale,
            top,
            below,
        } => {
            let top = Box::new(alloc, number_dates(alloc, top, dates)?)?;
            let below = Box::new(alloc, number_dates(alloc, below, dates)?)?;
            Ok(Expr::Div {
                mode: *mode,
                scale: *scale,
                top,
                below,
            })
        }
        Vx::Acc { body, days, first } => {
            let body = Box::new(alloc, number_dates(alloc, body, dates)?)?;
            let first = Box::new(alloc, number_dates(alloc, first, dates)?)?;
            Ok(Expr::Acc {
                body,
                days: *days,
                first,
            })
        }
    }
}
