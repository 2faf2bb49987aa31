//! The walk over a contract that notes its payments.

ghost use Rattle.std.specs.Prelude.{◌≡◌, ◌≤◌, ◌+◌, ◌-◌, ◌≤ℤ◌, ◌+ℤ◌, ◌-ℤ◌, pos, min, max, unsigned_abs, IfOk, int_lt};
ghost use Rattle.term_model.specs.Terms.{contract, expression, Both, Scale, Let, Within};
ghost use Rattle.term_model.specs.DayCounts.{day_count};
ghost use Rattle.term_model.specs.Flows.{count_of};
ghost use Rattle.term_model.specs.Sizes.{reach};
ghost use Rattle.flow_eval.specs.Gathering.{Gathers};
ghost use Rattle.flow_eval.specs.Readiness.{IsAmongDays, IsUpTo};
ghost use Rattle.flow_eval.specs.WalkAnswers.{IsAnswerFor, IsFirstDayFor, MayAnswer, MayWalk, Notes, kind_among, paid_alone};

use crate::faults::FlowErr;
use crate::payments::{Payment, Transfer, multiply_from, pay};
use decimal::pow10;
use expr_eval::{Held, Scratch, eval, first_true, kind_of};
use fixing_files::Fixings;
use term_model::{Contr, Days, Decls, Expr, Kind, Missing, Value};

/// What a walk goes by: the declarations, the fixings, and the last day that counts.
#[derive(Clone, Copy)]
pub struct Basis<'a> {
    pub decls: &'a Decls,
    pub fixings: &'a Fixings,
    pub until: i64,
}

/// Where a part of a contract stands: its day, and the decimals that the factors round it leave for
/// its payments.
#[derive(Clone, Copy, Debug, PartialEq, Eq)]
pub struct Standing {
    pub day: i64,
    pub decimals: u8,
}

impl Standing {
    /// The same some days later.
    pub fn after(self, days: u32) -> Standing
        requires { IsAmongDays self.day days }
        ensures { result ≡ record self { day = self.day +ℤ pos days } }
    {
        Standing {
            day: self.day + days as i64,
            decimals: self.decimals,
        }
    }

    /// The same inside a factor of so many decimals.
    pub fn within(self, scale: u8) -> Standing
        requires { scale ≤ self.decimals }
        ensures { result ≡ record self { decimals = self.decimals - scale } }
    {
        Standing {
            day: self.day,
            decimals: self.decimals - scale,
        }
    }
}

// The kind of an expression.
fn kind_at(basis: &Basis, e: &Expr, scratch: &Scratch) -> Kind
    requires ready { MayAnswer basis.now (expression e.now) scratch.now }
    ensures { result ≡ kind_among basis.now (expression e.now) scratch.now }
{
    kind_of(basis.decls, e, scratch)
}

// The value of an expression on its day, or the first place that it reads and that is not fixed.
fn value_at(
    basis: &Basis,
    e: &Expr,
    scratch: &mut Scratch,
    here: Standing,
) -> Result<Value, Missing>
    requires ready { MayAnswer basis.now (expression e.now) scratch.old }
    requires day { IsAmongDays here.day 0 }
    ensures answer { IsAnswerFor basis.now (expression e.now) here scratch.old result }
    ensures same { scratch.new ≡ scratch.old }
{
    eval(basis.decls, e, scratch, basis.fixings, here.day)
}

/// The last day that counts has passed.
pub fn is_over(basis: &Basis, here: Standing) -> bool
    ensures { result ≡ int_lt basis.now.until here.day }
{
    basis.until < here.day
}

// The days after the first on which a test of so many days is tried.
fn days_tried(basis: &Basis, here: Standing, days: u32) -> u32
    requires first { pos 0 ≤ℤ here.day }
    requires in_time { here.day ≤ℤ basis.now.until }
    ensures { result ≡ min days (unsigned_abs (basis.now.until -ℤ here.day)) }
{
    if basis.until - here.day < days as i64 {
        (basis.until - here.day) as u32
    } else {
        days
    }
}

/// The days until a test first holds, of so many and up to the last day that counts.
pub fn first_day(
    basis: &Basis,
    test: &Expr,
    scratch: &mut Scratch,
    here: Standing,
    days: u32,
) -> Result<Option<u32>, Missing>
    requires ready { MayAnswer basis.now (expression test.now) scratch.old }
    requires days { IsAmongDays here.day days }
    requires in_time { here.day ≤ℤ basis.now.until }
    ensures answer { IsFirstDayFor basis.now (expression test.now) here scratch.old days result }
    ensures found { IfOk result (λ first. IsUpTo first days) }
    ensures same { scratch.new ≡ scratch.old }
{
    let count = days_tried(basis, here, days) + 1;
    first_true(basis.decls, test, &*scratch, basis.fixings, here.day, count)
}

/// Notes the payment of one unit of an asset.
pub fn gather_pay(
    basis: &Basis,
    out: &mut Vec<Payment>,
    here: Standing,
    asset: u32,
    from: u32,
    to: u32,
) -> Result<(), FlowErr>
    requires { here.decimals ≤ 12 }
    ensures { Gathers (paid_alone basis.now here asset from to) out.old.items out.new.items result }
{
    let transfer = Transfer { asset, from, to };
    pay(out, basis.until, here.day, transfer, pow10(here.decimals))?;
    Ok(())
}

/// Notes the payments of a contract up to the last day that counts, or answers the first place that
/// it reads and that is not fixed.
#[cycle(gathering)]
pub fn gather(
    basis: &Basis,
    out: &mut Vec<Payment>,
    scratch: &mut Scratch,
    here: Standing,
    c: &Contr,
) -> Result<(), FlowErr>
    requires ready { MayWalk basis.now (contract c.now) here scratch.old }
    requires days { IsAmongDays here.day (reach (contract c.now)) }
    ensures answer { Notes basis.now (contract c.now)
        here scratch.old out.old.items out.new.items result }
    ensures same { scratch.new ≡ scratch.old }
{
    if is_over(basis, here) {
        return Ok(());
    }
    match c {
        Contr::Zero => Ok(()),
        Contr::Pay { asset, from, to } => gather_pay(basis, out, here, *asset, *from, *to),
        Contr::Both { left, right } => gather_both(basis, out, scratch, here, left, right),
        Contr::Scale { factor, body } => gather_scaled(basis, out, scratch, here, factor, body),
        Contr::After { days, body } => {
            gather(basis, out, scratch, here.after(days.number()), body)
        }
        Contr::Let { bound, body } => gather_bound(basis, out, scratch, here, bound, body),
        Contr::Within {
            test,
            days,
            hit,
            miss,
        } => gather_within(basis, out, scratch, here, test, days, hit, miss),
    }
}

// Notes the payments of two parts.
#[cycle(gathering)]
fn gather_both(
    basis: &Basis,
    out: &mut Vec<Payment>,
    scratch: &mut Scratch,
    here: Standing,
    left: &Contr,
    right: &Contr,
) -> Result<(), FlowErr>
    requires ready { MayWalk basis.now (Both (contract left.now) (contract right.now))
        here scratch.old }
    requires days { IsAmongDays here.day (max (reach (contract left.now))
        (reach (contract right.now))) }
    ensures answer { Notes basis.now (Both (contract left.now) (contract right.now))
        here scratch.old out.old.items out.new.items result }
    ensures same { scratch.new ≡ scratch.old }
{
    gather(basis, out, scratch, here, left)?;
    gather(basis, out, scratch, here, right)
}

// Notes the payments of the branch that a test enters, if it does so by the last day that counts.
#[cycle(gathering)]
fn gather_within(
    basis: &Basis,
    out: &mut Vec<Payment>,
    scratch: &mut Scratch,
    here: Standing,
    test: &Expr,
    days: &Days,
    hit: &Contr,
    miss: &Contr,
) -> Result<(), FlowErr>
    requires ready { MayWalk basis.now (Within (expression test.now) (day_count days.now)
        (contract hit.now) (contract miss.now)) here scratch.old }
    requires days { IsAmongDays here.day (count_of (day_count days.now)
        + max (reach (contract hit.now)) (reach (contract miss.now))) }
    requires in_time { here.day ≤ℤ basis.now.until }
    ensures answer { Notes basis.now (Within (expression test.now) (day_count days.now)
        (contract hit.now) (contract miss.now))
        here scratch.old out.old.items out.new.items result }
    ensures same { scratch.new ≡ scratch.old }
{
    let days = days.number();
    match first_day(basis, test, scratch, here, days)? {
        Some(first) => gather(basis, out, scratch, here.after(first), hit),
        None => gather(basis, out, scratch, here.after(days), miss),
    }
}

// Notes the payments of a contract times a factor, which is only asked for where there are some.
#[cycle(gathering)]
fn gather_scaled(
    basis: &Basis,
    out: &mut Vec<Payment>,
    scratch: &mut Scratch,
    here: Standing,
    factor: &Expr,
    body: &Contr,
) -> Result<(), FlowErr>
    requires ready { MayWalk basis.now (Scale (expression factor.now) (contract body.now))
        here scratch.old }
    requires days { IsAmongDays here.day (reach (contract body.now)) }
    ensures answer { Notes basis.now (Scale (expression factor.now) (contract body.now))
        here scratch.old out.old.items out.new.items result }
    ensures same { scratch.new ≡ scratch.old }
{
    let scale = kind_at(basis, factor, scratch).scale();
    let first = out.len();
    gather(basis, out, scratch, here.within(scale), body)?;
    if out.len() == first {
        return Ok(());
    }
    let factor = value_at(basis, factor, scratch, here)?;
    multiply_from(out, first, factor.number());
    Ok(())
}

// Notes the payments of a contract in which a name is bound to an expression.
#[cycle(gathering)]
fn gather_bound(
    basis: &Basis,
    out: &mut Vec<Payment>,
    scratch: &mut Scratch,
    here: Standing,
    bound: &Expr,
    body: &Contr,
) -> Result<(), FlowErr>
    requires ready { MayWalk basis.now (Let (expression bound.now) (contract body.now))
        here scratch.old }
    requires days { IsAmongDays here.day (reach (contract body.now)) }
    ensures answer { Notes basis.now (Let (expression bound.now) (contract body.now))
        here scratch.old out.old.items out.new.items result }
    ensures same { scratch.new ≡ scratch.old }
{
    let kind = kind_at(basis, bound, scratch);
    let held = Held::of(value_at(basis, bound, scratch, here));
    scratch.enter(kind, held);
    let gathered = gather(basis, out, scratch, here, body);
    scratch.leave();
    gathered
}
