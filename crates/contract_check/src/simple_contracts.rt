//! Simple contracts: transfers, sums, waits, and simple factors. Most contracts of a book are
//! simple, and one walk in small numbers measures all that the rules ask of one. It leaves to the
//! rules a contract that is not simple, breaks a rule or has greater numbers. A function pays at
//! entry for the locals of all its arms, so each form with parts has one of its own.

ghost use Rattle.std.specs.Prelude.{◌≡◌, ◌≤◌, ◌+◌, ◌-◌, pos, option_map, IfSome};
ghost use Rattle.term_model.specs.Declarations.{declarations, decimals_of};
ghost use Rattle.term_model.specs.DayCounts.{Num};
ghost use Rattle.term_model.specs.Terms.{contract, expression, Both, Scale, After};
ghost use Rattle.term_model.specs.Limits.{most_days};
ghost use Rattle.time_types.specs.Starts.{start_day};
ghost use Rattle.contract_check.specs.Checks.{IsGranted};
ghost use Rattle.contract_check.specs.SimpleContracts.{sooner, IsEarly, IsWithin, IsMeasured};
ghost use Rattle.contract_check.specs.SimpleFactors.{most_decimals};
ghost use Rattle.contract_check.specs.SimpleContracts as simple;

use crate::checks::Facts;
use crate::horizons::delayed_by;
use crate::simple_factors::{Factor, GREATEST_TOTAL, MOST_DECIMALS, factor_of};
use decimal::pow10;
use term_model::{Contr, Days, Decls, Expr, MOST_DAYS, MOST_HEIGHT, MOST_NODES};
use time_types::Start;

// What is measured of a part, its total in units of the portfolio's decimals.
#[derive(Clone, Copy)]
struct Measure {
    height: u32,
    nodes: u32,
    reach: u32,
    start: Option<u32>,
    horizon: u32,
    scale: u8,
    total: u64,
}

// Of what pays nothing.
fn nothing() -> Measure
    ensures { result ≡ simple.nothing }
{
    Measure {
        height: 1,
        nodes: 1,
        reach: 0,
        start: None,
        horizon: 0,
        scale: 0,
        total: 0,
    }
}

// Of a transfer under factors of so many decimals, where its asset has as many.
fn payment(decls: &Decls, asset: u32, above: u8) -> Option<Measure>
    requires { above ≤ decls.now.amounts }
    ensures payment { IfSome result (λ m. m ≡ simple.payment (decls.now.amounts - above)) }
    ensures fits { IfSome result (λ _. above ≤ decimals_of (declarations decls.now) asset) }
{
    if above > decls.decimals(asset) {
        return None;
    }
    Some(Measure {
        height: 1,
        nodes: 1,
        reach: 0,
        start: Some(0),
        horizon: 1,
        scale: 0,
        total: pow10(decls.amounts - above) as u64,
    })
}

// A measure that keeps the limits.
fn kept(m: Measure) -> Option<Measure>
    ensures same { IfSome result (λ kept. kept ≡ m) }
    ensures within { IfSome result (λ kept. IsWithin kept) }
{
    let is_small = m.height <= MOST_HEIGHT && m.nodes <= MOST_NODES && m.reach <= MOST_DAYS;
    if is_small && m.total <= GREATEST_TOTAL {
        Some(m)
    } else {
        None
    }
}

// The earlier of two days, where there are any.
fn sooner_of(a: Option<u32>, b: Option<u32>) -> Option<u32>
    ensures { result ≡ sooner a b }
{
    match (a, b) {
        (None, _) => b,
        (Some(_), None) => a,
        (Some(a), Some(b)) => Some(a.min(b)),
    }
}

// Of two parts together.
fn joined(left: Measure, right: Measure) -> Measure
    requires left { IsWithin left }
    requires right { IsWithin right }
    ensures { result ≡ simple.joined left right }
{
    Measure {
        height: left.height.max(right.height) + 1,
        nodes: left.nodes + right.nodes + 1,
        reach: left.reach.max(right.reach),
        start: sooner_of(left.start, right.start),
        horizon: left.horizon.max(right.horizon),
        scale: left.scale.max(right.scale),
        total: left.total + right.total,
    }
}

// Of a part under a factor.
fn multiplied(factor: Factor, body: Measure) -> Option<Measure>
    requires few { factor.nodes ≤ 4 }
    requires low { factor.height ≤ 3 }
    requires within { IsWithin body }
    requires scale { factor.scale + body.scale ≤ 12 }
    ensures same { IfSome result (λ m. m ≡ simple.multiplied factor body) }
    ensures within { IfSome result (λ m. IsWithin m) }
{
    let total = body.total.checked_mul(factor.size)?;
    kept(Measure {
        height: factor.height.max(body.height) + 1,
        nodes: factor.nodes + body.nodes + 1,
        scale: factor.scale + body.scale,
        total,
        ..body
    })
}

// A start so many days later.
fn later_start(days: u32, start: Option<u32>) -> Option<u32>
    requires days { days ≤ most_days }
    requires start { IsEarly most_days start }
    ensures { result ≡ option_map (λ day. days + day) start }
{
    match start {
        Some(day) => Some(days + day),
        None => None,
    }
}

// Of a part that stands so many days later.
fn delayed(days: u32, body: Measure) -> Measure
    requires days { days ≤ most_days }
    requires within { IsWithin body }
    requires start { IsEarly body.reach body.start }
    requires horizon { body.horizon ≤ body.reach + 1 }
    ensures { result ≡ simple.delayed days body }
{
    Measure {
        height: body.height + 1,
        nodes: body.nodes + 1,
        reach: days + body.reach,
        start: later_start(days, body.start),
        horizon: delayed_by(days, body.horizon),
        ..body
    }
}

// The measure of a contract under factors that have so many decimals together.
#[cycle(measuring)]
fn measure_of(decls: &Decls, c: &Contr, above: u8) -> Option<Measure>
    requires few { above ≤ most_decimals }
    requires within { above ≤ decls.now.amounts }
    ensures { IfSome result (λ m. IsMeasured (declarations decls.now) above (contract c.now) m) }
{
    match c {
        Contr::Zero => Some(nothing()),
        Contr::Pay { asset, .. } => payment(decls, *asset, above),
        Contr::Both { left, right } => measure_both(decls, left, right, above),
        Contr::Scale { factor, body } => measure_scaled(decls, factor, body, above),
        Contr::After {
            days: Days::Num { days },
            body,
        } => measure_later(decls, *days, body, above),
        _ => None,
    }
}

// Of two contracts together.
#[cycle(measuring)]
fn measure_both(decls: &Decls, left: &Contr, right: &Contr, above: u8) -> Option<Measure>
    requires few { above ≤ most_decimals }
    requires within { above ≤ decls.now.amounts }
    ensures { IfSome result (λ m. IsMeasured (declarations decls.now) above
        (Both (contract left.now) (contract right.now)) m) }
{
    let one = measure_of(decls, left, above)?;
    let other = measure_of(decls, right, above)?;
    kept(joined(one, other))
}

// Of a contract under a factor.
#[cycle(measuring)]
fn measure_scaled(decls: &Decls, factor: &Expr, body: &Contr, above: u8) -> Option<Measure>
    requires few { above ≤ most_decimals }
    requires within { above ≤ decls.now.amounts }
    ensures { IfSome result (λ m. IsMeasured (declarations decls.now) above
        (Scale (expression factor.now) (contract body.now)) m) }
{
    let factor = factor_of(decls, factor)?;
    if factor.scale > decls.amounts.min(MOST_DECIMALS) - above {
        return None;
    }
    let measured = measure_of(decls, body, above + factor.scale)?;
    multiplied(factor, measured)
}

// Of a contract that stands so many days later.
#[cycle(measuring)]
fn measure_later(decls: &Decls, days: u32, body: &Contr, above: u8) -> Option<Measure>
    requires few { above ≤ most_decimals }
    requires within { above ≤ decls.now.amounts }
    ensures { IfSome result (λ m. IsMeasured (declarations decls.now) above
        (After (Num days) (contract body.now)) m) }
{
    if days > MOST_DAYS {
        return None;
    }
    let measured = measure_of(decls, body, above)?;
    kept(delayed(days, measured))
}

// The start of a contract that first transfers on a day, if on any.
fn start_of(first: Option<u32>) -> Start
    ensures { start_day result ≡ option_map (λ day. pos day) first }
{
    match first {
        Some(day) => Start::Day { day: day as i64 },
        None => Start::Always,
    }
}

/// What is said of a simple contract that meets all five rules. `None` says nothing of a contract:
/// the rules have to be tried.
pub fn simple_facts(decls: &Decls, c: &Contr) -> Option<Facts>
    ensures { IfSome result (λ facts. IsGranted (declarations decls.now) (contract c.now) facts) }
{
    let measured = measure_of(decls, c, 0)?;
    Some(Facts {
        start: start_of(measured.start),
        scale: measured.scale,
        total: measured.total as i128,
        horizon: measured.horizon,
    })
}
