//! The walk over code at a base: what it is worth, or the first place that is not fixed.

ghost use Rattle.std.specs.Prelude.{◌≡◌, ◌≤◌, ◌+◌, ◌*ℤ◌, ◌+ℤ◌, int_lt, true, unsigned_abs, IfOk};
ghost use Rattle.std.specs.Prelude.{Ok};
ghost use Rattle.term_model.specs.Limits.{most_days};
ghost use Rattle.term_model.specs.Values.{num};
ghost use Rattle.term_model.specs.Flows.{unit_flow};
ghost use Rattle.interval_check.specs.Safety.{IsSmall};
ghost use Rattle.expr_eval.specs.Fits.{IsDay};
ghost use Rattle.payoff_terms.specs.TemplateDates.{date, day_of};
ghost use Rattle.payoff_terms.specs.Code.{value_expression, payoff_code};
ghost use Rattle.payoff_terms.specs.CodeSizes.{height_of_code};
ghost use Rattle.payoff_terms.specs.CodeValues.{factor_on};
ghost use Rattle.payoff_terms.specs.CodeReads.{concerns};
ghost use Rattle.payoff_eval.specs.DatesFit.{IsDayOfDate};
ghost use Rattle.payoff_eval.specs.Walks.{then_added};
ghost use Rattle.payoff_eval.specs.CodeRules.{IsAtMostTen};
ghost use Rattle.payoff_eval.specs.CodeRuns.{DayFits, IsUpTo, paid};
ghost use Rattle.payoff_eval.specs.CodeEvaluations.{EvaluatesFrom, EvaluatesOn, HasKindOn, WalksOn};
ghost use Rattle.payoff_eval.specs.CodeEvaluations.{add_code, answer, asked_of, first_from};
ghost use Rattle.payoff_eval.specs.CodeEvaluations.{kind_on};
ghost use Rattle.payoff_eval.specs.CodeEvaluations.{let_code, loop_code, scale_code, worth_on};

use crate::asking::Asking;
use crate::dates::{count, day_of};
use crate::evaluation::evaluate;
use crate::kinds::kind_in;
use decimal::align;
use expr_eval::{Bindings, Held, Scratch, without_kind};
use payoff_terms::{Code, DateExpr, Vx};
use term_model::{Kind, Missing, Value, days_later};

/// What code is worth at some decimals, and whether it reaches a payment of the pair and the asset
/// that are asked for.
#[derive(Clone, Copy, Debug, PartialEq, Eq)]
pub struct Worth {
    pub amount: i128,
    pub reached: bool,
}

const NOTHING: Worth = Worth {
    amount: 0,
    reached: false,
};

// A payment of this pair, either way, and this asset.
fn is_asked(asking: &Asking, asset: u32, from: u32, to: u32) -> bool
    ensures { result ≡ concerns asset from to (asked_of asking.now).flow }
{
    asset == asking.asset
        && from != to
        && ((from == asking.from && to == asking.to) || (from == asking.to && to == asking.from))
}

// One unit from one party to another, as it is asked for.
fn unit(asking: &Asking, asset: u32, from: u32, to: u32) -> i128
    ensures value { result ≡ unit_flow asset from to (asked_of asking.now).flow }
    ensures small { unsigned_abs result ≤ 1 }
{
    if asset == asking.asset && from != to {
        if from == asking.from && to == asking.to {
            1
        } else if from == asking.to && to == asking.from {
            -1
        } else {
            0
        }
    } else {
        0
    }
}

// The discount factor of a day, seen from the current day.
fn factor(asking: &Asking, day: i64) -> i128
    requires day { IsDayOfDate day }
    ensures value { result ≡ factor_on (asked_of asking.now) day }
    ensures small { IsAtMostTen result }
{
    asking.curve.at(day - asking.today)
}

// A factor times a unit.
fn times(factor: i128, unit: i128) -> i128
    requires factor { IsAtMostTen factor }
    requires unit { unsigned_abs unit ≤ 1 }
    ensures value { result ≡ factor *ℤ unit }
    ensures small { IsAtMostTen result }
{
    factor * unit
}

// A payment on a day, at nine decimals.
fn face(asking: &Asking, day: i64, asset: u32, from: u32, to: u32) -> i128
    requires day { IsDayOfDate day }
    ensures value { result ≡ factor_on (asked_of asking.now) day
        *ℤ unit_flow asset from to (asked_of asking.now).flow }
    ensures small { IsAtMostTen result }
{
    times(factor(asking, day), unit(asking, asset, from, to))
}

// A payment on a day.
fn pay(asking: &Asking, decimals: u8, day: i64, asset: u32, from: u32, to: u32) -> Worth
    requires low { 9 ≤ decimals }
    requires high { decimals ≤ 21 }
    requires day { IsDayOfDate day }
    ensures { result ≡ paid decimals (asked_of asking.now) day asset from to }
{
    Worth {
        amount: align(face(asking, day, asset, from, to), 9, decimals),
        reached: is_asked(asking, asset, from, to),
    }
}

// The kind of a value expression, with the entries of a scratch for its names.
fn kind_of(asking: &Asking, scratch: &Scratch, v: &Vx) -> Kind
    requires { HasKindOn asking.now (value_expression v.now) scratch.now.entries }
    ensures { result ≡ kind_on asking.now (value_expression v.now) scratch.now.entries }
{
    let names = Bindings::Lent { scratch };
    kind_in(asking, v, &names)
}

// The value of a value expression at a base, or the first place that it reads and that is not
// fixed.
fn value_on(asking: &Asking, scratch: &Scratch, base: i64, v: &Vx) -> Result<Value, Missing>
    requires { EvaluatesOn asking.now (value_expression v.now) scratch.now.entries base }
    ensures { result ≡ answer asking.now (value_expression v.now) scratch.now.entries base }
{
    let names = Bindings::Lent { scratch };
    without_kind(evaluate(asking, v, &names, base))
}

// The days until a test is first true, of the days 0 to `days`.
fn first_day(
    asking: &Asking,
    scratch: &Scratch,
    base: i64,
    test: &Vx,
    days: u32,
) -> Result<Option<u32>, Missing>
    requires days { days ≤ most_days }
    requires base { IsDay base }
    requires fits { EvaluatesFrom asking.now (value_expression test.now) scratch.now.entries base }
    ensures few { IfOk result (λ first. IsUpTo first days) }
    ensures day { result ≡ first_from asking.now
        (value_expression test.now) scratch.now.entries base (days + 1) }
{
    for i in 0..days + 1 {
        let value = value_on(asking, scratch, days_later(base, i), test)?;
        if value.is_true() {
            return Ok(Some(i));
        }
    }
    Ok(None)
}

// Both amounts.
fn added(left: Worth, right: Worth) -> Worth
    requires left { IsSmall left.amount }
    requires right { IsSmall right.amount }
    ensures { Ok result ≡ then_added (Ok left) (Ok right) }
{
    Worth {
        amount: left.amount + right.amount,
        reached: left.reached || right.reached,
    }
}

// An amount times a number.
fn scaled(by: Value, worth: Worth) -> Worth
    requires { IsSmall (num by *ℤ worth.amount) }
    ensures { result ≡ record { amount = num by *ℤ worth.amount; reached = true } }
{
    Worth {
        amount: by.number() * worth.amount,
        reached: true,
    }
}

// The date has gone by.
fn is_gone(asking: &Asking, base: i64, x: &DateExpr) -> bool
    requires { DayFits asking.now.setting.now (date x.now) base }
    ensures { result
        ≡ int_lt (base +ℤ day_of asking.now.setting.now (date x.now)) asking.now.today }
{
    day_of(asking, base, x) < asking.today
}

/// What code is worth at a base, at so many decimals, or the first place that it reads and that is
/// not fixed. A function pays at entry for the locals of all its arms, so the other forms with such
/// have one of their own.
#[cycle(walking)]
pub fn walk(
    asking: &Asking,
    scratch: &mut Scratch,
    base: i64,
    decimals: u8,
    k: &Code,
) -> Result<Worth, Missing>
    requires fits { WalksOn asking.now decimals (payoff_code k.now) scratch.old.entries base }
    requires space { height_of_code (payoff_code k.now) ≤ scratch.old.spare }
    ensures worth { result
        ≡ worth_on asking.now decimals (payoff_code k.now) scratch.old.entries base }
    ensures same { scratch.new ≡ scratch.old }
{
    match k {
        Code::None => Ok(NOTHING),
        Code::Pay {
            date,
            asset,
            from,
            to,
        } => walk_payment(asking, base, decimals, date, *asset, *from, *to),
        Code::Add { left, right } => walk_both(asking, scratch, base, decimals, left, right),
        Code::Scale { factor, body } => walk_scaled(asking, scratch, base, decimals, factor, body),
        Code::Let { bound, body } => walk_bound(asking, scratch, base, decimals, bound, body),
        Code::LoopIf {
            test,
            upto,
            hit,
            miss,
        } => walk_loop(asking, scratch, base, decimals, test, upto, hit, miss),
        Code::Cut { date, body } => {
            if is_gone(asking, base, date) {
                return Ok(NOTHING);
            }
            walk(asking, scratch, base, decimals, body)
        }
    }
}

// A payment on a date.
fn walk_payment(
    asking: &Asking,
    base: i64,
    decimals: u8,
    on: &DateExpr,
    asset: u32,
    from: u32,
    to: u32,
) -> Result<Worth, Missing>
    requires low { 9 ≤ decimals }
    requires high { decimals ≤ 21 }
    requires day { DayFits asking.now.setting.now (date on.now) base }
    ensures { result ≡ Ok (paid decimals (asked_of asking.now)
        (base +ℤ day_of asking.now.setting.now (date on.now)) asset from to) }
{
    let day = day_of(asking, base, on);
    Ok(pay(asking, decimals, day, asset, from, to))
}

// Both amounts, the left one first.
#[cycle(walking)]
fn walk_both(
    asking: &Asking,
    scratch: &mut Scratch,
    base: i64,
    decimals: u8,
    left: &Code,
    right: &Code,
) -> Result<Worth, Missing>
    requires fits { WalksOn asking.now decimals (add_code left.now right.now)
        scratch.old.entries base }
    requires space { height_of_code (add_code left.now right.now) ≤ scratch.old.spare }
    ensures worth { result
        ≡ worth_on asking.now decimals (add_code left.now right.now) scratch.old.entries base }
    ensures same { scratch.new ≡ scratch.old }
{
    let left = walk(asking, scratch, base, decimals, left)?;
    let right = walk(asking, scratch, base, decimals, right)?;
    Ok(added(left, right))
}

// An amount times a factor, which is asked for only where a payment is reached.
#[cycle(walking)]
fn walk_scaled(
    asking: &Asking,
    scratch: &mut Scratch,
    base: i64,
    decimals: u8,
    by: &Vx,
    body: &Code,
) -> Result<Worth, Missing>
    requires fits { WalksOn asking.now decimals (scale_code by.now body.now)
        scratch.old.entries base }
    requires space { height_of_code (scale_code by.now body.now) ≤ scratch.old.spare }
    ensures worth { result
        ≡ worth_on asking.now decimals (scale_code by.now body.now) scratch.old.entries base }
    ensures same { scratch.new ≡ scratch.old }
{
    let scale = kind_of(asking, scratch, by).scale();
    let worth = walk(asking, scratch, base, decimals - scale, body)?;
    if !worth.reached {
        return Ok(NOTHING);
    }
    let by = value_on(asking, scratch, base, by)?;
    Ok(scaled(by, worth))
}

// An amount in which a name is bound: its value or its first missing read is found once.
#[cycle(walking)]
fn walk_bound(
    asking: &Asking,
    scratch: &mut Scratch,
    base: i64,
    decimals: u8,
    bound: &Vx,
    body: &Code,
) -> Result<Worth, Missing>
    requires fits { WalksOn asking.now decimals (let_code bound.now body.now)
        scratch.old.entries base }
    requires space { height_of_code (let_code bound.now body.now) ≤ scratch.old.spare }
    ensures worth { result
        ≡ worth_on asking.now decimals (let_code bound.now body.now) scratch.old.entries base }
    ensures same { scratch.new ≡ scratch.old }
{
    let kind = kind_of(asking, scratch, bound);
    let held = Held::of(value_on(asking, scratch, base, bound));
    scratch.enter(kind, held);
    let worth = walk(asking, scratch, base, decimals, body);
    scratch.leave();
    worth
}

// The branch that a loop enters.
#[cycle(walking)]
fn walk_loop(
    asking: &Asking,
    scratch: &mut Scratch,
    base: i64,
    decimals: u8,
    test: &Vx,
    upto: &DateExpr,
    hit: &Code,
    miss: &Code,
) -> Result<Worth, Missing>
    requires fits { WalksOn asking.now decimals (loop_code test.now upto.now hit.now miss.now)
        scratch.old.entries base }
    requires space { height_of_code (loop_code test.now upto.now hit.now miss.now)
        ≤ scratch.old.spare }
    ensures worth { result ≡ worth_on asking.now decimals
        (loop_code test.now upto.now hit.now miss.now) scratch.old.entries base }
    ensures same { scratch.new ≡ scratch.old }
{
    let days = count(asking, upto);
    match first_day(asking, scratch, base, test, days)? {
        Some(first) => walk(asking, scratch, days_later(base, first), decimals, hit),
        None => walk(asking, scratch, base, decimals, miss),
    }
}
