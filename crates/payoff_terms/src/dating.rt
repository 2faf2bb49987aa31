//! Value expressions from expressions, for every way in which an offset gives a date.

ghost use Rattle.std.specs.Prelude.{◌≡◌, ℤ, IfOk};
ghost use Rattle.term_model.specs.Terms.{expression};
ghost use Rattle.payoff_terms.specs.TemplateDates.{Date, date, plus_days};
ghost use Rattle.payoff_terms.specs.Dating.{HaveDates, MayMove, with_date};
ghost use Rattle.payoff_terms.specs.Code.{value_expression};

use crate::code::{DateExpr, Vx};
use decimal::NoMemory;
use std::alloc::Global;
use term_model::Expr;

/// How the offset of an observable gives the date on which it is read.
pub trait Dating {
    ghost has: { Self → ℤ → Type 0 };

    ghost on: { Self → ℤ → Date };

    /// The date at an offset.
    fn date_at(&self, alloc: Global, offset: i32) -> Result<DateExpr, NoMemory>
        requires { has self.now offset }
        ensures { IfOk result (λ x. date x ≡ on self.now offset) };
}

/// The same date once more.
pub fn copied_date(alloc: Global, on: &DateExpr) -> Result<DateExpr, NoMemory>
    ensures { IfOk result (λ x. date x ≡ date on.now) }
{
    let names = Vec::from_slice(alloc, on.names.as_slice())?;
    Ok(DateExpr {
        days: on.days,
        names,
    })
}

// So many days later; the templates stay.
impl Dating for DateExpr {
    ghost has = { λ x t. MayMove x.days t };

    ghost on = { λ x t. plus_days (date x) t };

    fn date_at(&self, alloc: Global, offset: i32) -> Result<DateExpr, NoMemory> {
        let names = Vec::from_slice(alloc, self.names.as_slice())?;
        Ok(DateExpr {
            days: self.days + offset,
            names,
        })
    }
}

/// The value expression of an expression, by the dates of its offsets.
pub fn dated<D: Dating>(alloc: Global, dates: &D, e: &Expr) -> Result<Vx, NoMemory>
    requires { HaveDates (D.has dates.now) (expression e.now) }
    ensures { IfOk result (λ v. value_expression v
        ≡ with_date (D.on dates.now) (expression e.now)) }
{
    match e {
        Expr::Lit { mant, scale } => Ok(Vx::Lit {
            mant: *mant,
            scale: *scale,
        }),
        Expr::Yes { value } => Ok(Vx::Yes { value: *value }),
        Expr::Var { back } => Ok(Vx::Var { back: *back }),
        Expr::Obs { label, offset } => {
            let date = dates.date_at(alloc, *offset)?;
            Ok(Vx::Model {
                label: *label,
                date,
            })
        }
        Expr::Neg { of } => {
            let of = Box::new(alloc, dated(alloc, dates, of)?)?;
            Ok(Vx::Neg { of })
        }
        Expr::Num { op, left, right } => {
            let left = Box::new(alloc, dated(alloc, dates, left)?)?;
            let right = Box::new(alloc, dated(alloc, dates, right)?)?;
            Ok(Vx::Num {
                op: *op,
                left,
                right,
            })
        }
        Expr::Cmp { op, left, right } => {
            let left = Box::new(alloc, dated(alloc, dates, left)?)?;
            let right = Box::new(alloc, dated(alloc, dates, right)?)?;
            Ok(Vx::Cmp {
                op: *op,
                left,
                right,
            })
        }
        Expr::Not { of } => {
            let of = Box::new(alloc, dated(alloc, dates, of)?)?;
            Ok(Vx::Not { of })
        }
        Expr::Logic { op, left, right } => {
            let left = Box::new(alloc, dated(alloc, dates, left)?)?;
            let right = Box::new(alloc, dated(alloc, dates, right)?)?;
            Ok(Vx::Logic {
                op: *op,
                left,
                right,
            })
        }
        Expr::Cond { test, yes, no } => {
            let test = Box::new(alloc, dated(alloc, dates, test)?)?;
            let yes = Box::new(alloc, dated(alloc, dates, yes)?)?;
            let no = Box::new(alloc, dated(alloc, dates, no)?)?;
            Ok(Vx::Cond { test, yes, no })
        }
        Expr::Widen { scale, of } => {
            let of = Box::new(alloc, dated(alloc, dates, of)?)?;
            Ok(Vx::Widen { scale: *scale, of })
        }
        Expr::Round { mode, scale, of } => {
            let of = Box::new(alloc, dated(alloc, dates, of)?)?;
            Ok(Vx::Round {
                mode: *mode,
                scale: *scale,
                of,
            })
        }
        Expr::Div {
            mode,
            scale,
            top,
            below,
        } => {
            let top = Box::new(alloc, dated(alloc, dates, top)?)?;
            let below = Box::new(alloc, dated(alloc, dates, below)?)?;
            Ok(Vx::Div {
                mode: *mode,
                scale: *scale,
                top,
                below,
            })
        }
        Expr::Acc { body, days, first } => {
            let body = Box::new(alloc, dated(alloc, dates, body)?)?;
            let first = Box::new(alloc, dated(alloc, dates, first)?)?;
            Ok(Vx::Acc {
                body,
                days: *days,
                first,
            })
        }
    }
}
