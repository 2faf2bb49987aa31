//! The contracts that plans are written for.

ghost use Rattle.std.specs.Prelude.{◌≡◌, ◌<◌, ◌≤◌, ◌+◌, IfOk, map};
ghost use Rattle.std.specs.List.{range_with_len};
ghost use Rattle.term_model.specs.Terms.{contract, expression, Both, Pay, Scale};
ghost use Rattle.schedule_forms.specs.PaymentSizes.{expression_of_size};
ghost use Rattle.schedule_forms.specs.PlanLimits.{IsLegWithinLimits, IsSizeWithinLimits, IsWithinLimits};
ghost use Rattle.schedule_forms.specs.Expansions.{balanced, cover_payment, dated_payment, expansion, guarded, payment, payments};
ghost use Rattle.schedule_forms.specs.ExpandedPlans.{IsWrittenFor};

use crate::plans::{Leg, Plan, Size};
use decimal::NoMemory;
use std::alloc::Global;
use term_model::{Contr, Days, Expr, NumOp};

// A size as an expression.
fn expression_of_size(alloc: Global, size: &Size) -> Result<Expr, NoMemory>
    requires { IsSizeWithinLimits size.now }
    ensures { IfOk result (λ e. expression e ≡ expression_of_size size.now) }
{
    match size {
        Size::Fixed { mant, scale } => Ok(Expr::Lit {
            mant: *mant,
            scale: *scale,
        }),
        Size::Fixing {
            mode,
            scale,
            label,
            lag,
            mant,
            mant_scale,
        } => {
            let observed = Expr::Obs {
                label: *label,
                offset: -(*lag as i32),
            };
            let left = Box::new(alloc, observed)?;
            let notional = Expr::Lit {
                mant: *mant,
                scale: *mant_scale,
            };
            let right = Box::new(alloc, notional)?;
            let product = Expr::Num {
                op: NumOp::Times,
                left,
                right,
            };
            let of = Box::new(alloc, product)?;
            Ok(Expr::Round {
                mode: *mode,
                scale: *scale,
                of,
            })
        }
    }
}

// A payment of a size, from one party to another.
fn sized_payment(
    alloc: Global,
    factor: Expr,
    asset: u32,
    from: u32,
    to: u32,
) -> Result<Box<Contr>, NoMemory>
    ensures { IfOk result (λ c. contract c.value ≡ Scale (expression factor) (Pay asset from to)) }
{
    let pay = Contr::Pay { asset, from, to };
    let body = Box::new(alloc, pay)?;
    Ok(Box::new(alloc, Contr::Scale { factor, body })?)
}

// A payment of a leg, on the day on which it is made.
fn payment(alloc: Global, leg: &Leg) -> Result<Box<Contr>, NoMemory>
    requires { IsSizeWithinLimits leg.now.size }
    ensures { IfOk result (λ c. contract c.value ≡ payment leg.now) }
{
    let factor = expression_of_size(alloc, &leg.size)?;
    sized_payment(alloc, factor, leg.asset, leg.from, leg.to)
}

// The payment of a leg with this number, after its days.
fn dated_payment(alloc: Global, leg: &Leg, number: u32) -> Result<Contr, NoMemory>
    requires limits { IsLegWithinLimits 5_000 leg.now }
    requires number { number < leg.now.times }
    ensures { IfOk result (λ c. contract c ≡ dated_payment leg.now number) }
{
    let days = leg.first + number * leg.every;
    let body = payment(alloc, leg)?;
    Ok(Contr::After {
        days: Days::Num { days },
        body,
    })
}

// So many payments of a leg from a number on, in a balanced tree.
fn payments_together(alloc: Global, leg: &Leg, number: u32, count: u32) -> Result<Contr, NoMemory>
    requires limits { IsLegWithinLimits 5_000 leg.now }
    requires some { 0 < count }
    requires within { number + count ≤ leg.now.times }
    ensures { IfOk result (λ c. contract c
        ≡ balanced (map (dated_payment leg.now) (range_with_len number count))) }
{
    if count == 1 {
        return dated_payment(alloc, leg, number);
    }
    let half = (count + 1) / 2;
    let left = Box::new(alloc, payments_together(alloc, leg, number, half)?)?;
    let right = payments_together(alloc, leg, number + half, count - half)?;
    let right = Box::new(alloc, right)?;
    Ok(Contr::Both { left, right })
}

// All payments of a leg.
fn payments(alloc: Global, leg: &Leg) -> Result<Contr, NoMemory>
    requires { IsLegWithinLimits 5_000 leg.now }
    ensures { IfOk result (λ c. contract c ≡ balanced (payments leg.now)) }
{
    payments_together(alloc, leg, 0, leg.times)
}

// The cover, from the receiver of a leg to its payer.
fn cover_payment(alloc: Global, leg: &Leg, mant: i128, scale: u8) -> Result<Box<Contr>, NoMemory>
    ensures { IfOk result (λ c. contract c.value ≡ cover_payment leg.now mant scale) }
{
    let factor = Expr::Lit { mant, scale };
    sized_payment(alloc, factor, leg.asset, leg.to, leg.from)
}

// What ends a leg: a flag, and the cover that is paid on its first day.
#[derive(Clone, Copy)]
struct Guard {
    flag: u32,
    mant: i128,
    scale: u8,
}

// A payment, and what follows it.
fn followed(alloc: Global, paid: Box<Contr>, rest: Contr) -> Result<Box<Contr>, NoMemory>
    ensures { IfOk result (λ c. contract c.value ≡ Both (contract paid.value) (contract rest)) }
{
    let right = Box::new(alloc, rest)?;
    Ok(Box::new(alloc, Contr::Both { left: paid, right })?)
}

// The next payment of a leg, so many days from here, and so many further ones.
fn guarded(
    alloc: Global,
    leg: &Leg,
    guard: &Guard,
    days: u32,
    further: u32,
) -> Result<Contr, NoMemory>
    requires { IsSizeWithinLimits leg.now.size }
    ensures { IfOk result (λ c. contract c
        ≡ guarded leg.now guard.now.flag
        (cover_payment leg.now guard.now.mant guard.now.scale) days further) }
{
    let paid = payment(alloc, leg)?;
    let miss = if further == 0 {
        paid
    } else {
        let rest = guarded(alloc, leg, guard, leg.every, further - 1)?;
        followed(alloc, paid, rest)?
    };
    let hit = cover_payment(alloc, leg, guard.mant, guard.scale)?;
    let test = Expr::Obs {
        label: guard.flag,
        offset: 0,
    };
    Ok(Contr::Within {
        test,
        days: Days::Num { days },
        hit,
        miss,
    })
}

// The expansion of a plan.
fn expansion(alloc: Global, plan: &Plan) -> Result<Contr, NoMemory>
    requires { IsWithinLimits plan.now }
    ensures { IfOk result (λ c. contract c ≡ expansion plan.now) }
{
    match plan {
        Plan::Leg { leg } => payments(alloc, leg),
        Plan::Swap { one, two } => {
            let left = Box::new(alloc, payments(alloc, one)?)?;
            let right = Box::new(alloc, payments(alloc, two)?)?;
            Ok(Contr::Both { left, right })
        }
        Plan::Guarded {
            leg,
            flag,
            mant,
            scale,
        } => {
            let guard = Guard {
                flag: *flag,
                mant: *mant,
                scale: *scale,
            };
            guarded(alloc, leg, &guard, leg.first, leg.times - 1)
        }
    }
}

/// The contract that a plan is written for: the payments of a leg in a balanced tree, two legs
/// together, or payments one behind the other, each behind a test of the flag (after the contract
/// language of Bahr, Berthold and Elsman). It has a height of at most 200 and at most 100,000
/// nodes. Over declarations that have what the plan names it is closed and pays what the plan says;
/// and so it does where it is accepted. The error is want of memory.
///
/// The rules of acceptance can still refuse it: a size or a cover with more decimals than amounts
/// have, a label and a notional with more than 27 together, a last day and a lag of more than
/// 1,000,000 days together, in a swap also those of different legs, and numbers that grow too
/// large.
pub fn expand(alloc: Global, plan: &Plan) -> Result<Contr, NoMemory>
    requires limits { IsWithinLimits plan.now }
    ensures expansion { IfOk result (λ c. contract c ≡ expansion plan.now) }
    ensures written { IfOk result (λ c. IsWrittenFor plan.now (contract c)) }
{
    expansion(alloc, plan)
}
