//! The ranges of expressions, by the rule on bounds. The trial of an expression answers its range,
//! or the number of the node at fault, counted from the expression's own first node; nodes before
//! it are counted only on the way up from a fault. So no part is visited more than twice, but for
//! the body of an accumulator, which is tried anew for each day until a day changes nothing, unless
//! it adds the same on each day. A function pays at entry for the locals of all its arms, so each
//! form has one of its own.

ghost use Rattle.std.specs.Prelude.{◌≡◌, ◌<◌, ◌≤◌, ◌+◌, ◌^◌, IfErr, IfOk, slice_get};
ghost use Rattle.term_model.specs.Terms.{expression, Neg, Num, Cmp, Not, Logic, Cond};
ghost use Rattle.term_model.specs.Terms.{Widen, Round, Div, Acc};
ghost use Rattle.term_model.specs.declared.values.Kind.TheVariants.{Number};
ghost use Rattle.term_model.specs.Kinds.{scale_of_kind};
ghost use Rattle.term_model.specs.Values.{kind_or};
ghost use Rattle.term_model.specs.Sizes.{nodes};
ghost use Rattle.term_model.specs.Bounds.{range_kinds, single};
ghost use Rattle.term_core.specs.Trying.{FaultIsWithin, moved};
ghost use Rattle.interval_check.specs.Intervals.{interval, fitting};
ghost use Rattle.interval_check.specs.Ranges.{range, range_found, operands_found};
ghost use Rattle.interval_check.specs.Ranges.{AreFit, IsFit, IsFitOfKind};
ghost use Rattle.interval_check.specs.RangeScopes.{ranges_in};
ghost use Rattle.interval_check.specs.ScopedTrials.{body_among, day_among, range_among, range_within};
ghost use Rattle.interval_check.specs.ScopedTrials.{IsBodyScaled, IsScaledAmong, IsScaledWithin};
ghost use Rattle.interval_check.specs.RangeTrials.{ranged, named, range_or_truth, operands};
ghost use Rattle.interval_check.specs.RangeTrials.{days_tried};
ghost use Rattle.interval_check.specs.Steady.{TellsDays};

use crate::intervals::Interval;
use crate::quotients::divided;
use crate::range_scopes::{range_at, range_observed};
use crate::ranges::{
    Operands, Range, TRUTH, checked, combined, compared, either, is_same, negated, rounded, widened,
};
use crate::steady::{adds_alike, after_days};
use decimal::Mode;
use term_core::{behind, behind_node, nodes_in};
use term_model::{CmpOp, Decls, Expr, Kind, LogicOp, NumOp, Scope};

/// The range of an expression whose sorts and scales are right, among names of these ranges, or the
/// number of its first node that breaks the rule on bounds, counted from the expression's own first
/// node.
#[cycle(ranging)]
pub fn range_of(decls: &Decls, e: &Expr, scope: &Scope<Range>) -> Result<Range, u32>
    requires nodes { nodes (expression e.now) < 2 ^ 32 }
    requires scaled { IsScaledAmong decls.now e.now scope.now }
    ensures range { range_found result ≡ range_among decls.now e.now scope.now }
    ensures below { FaultIsWithin (nodes (expression e.now)) result }
    ensures fit { IfOk result (λ r. IsFit (range r)) }
{
    match e {
        Expr::Lit { mant, scale } => range_of_literal(*mant, *scale),
        Expr::Yes { .. } => Ok(TRUTH),
        Expr::Var { back } => range_of_name(scope, *back),
        Expr::Obs { label, .. } => range_observed(decls, *label),
        Expr::Neg { of } => range_of_negative(decls, of, scope),
        Expr::Not { of } => range_of_not(decls, of, scope),
        Expr::Widen { scale, of } => range_of_widened(decls, *scale, of, scope),
        Expr::Round { mode, scale, of } => range_of_rounded(decls, *mode, *scale, of, scope),
        Expr::Num { op, left, right } => range_of_num(decls, *op, left, right, scope),
        Expr::Cmp { op, left, right } => range_of_cmp(decls, *op, left, right, scope),
        Expr::Logic { op, left, right } => range_of_logic(decls, *op, left, right, scope),
        Expr::Div {
            mode,
            scale,
            top,
            below,
        } => range_of_quotient(decls, *mode, *scale, top, below, scope),
        Expr::Cond { test, yes, no } => range_of_choice(decls, test, yes, no, scope),
        Expr::Acc { body, days, first } => range_of_acc(decls, body, *days, first, scope),
    }
}

// The range of a part of an expression. Most parts are leaves and operators on numbers, which take
// no call of the function of all forms.
#[inline(always)]
#[cycle(ranging)]
fn range_of_part(decls: &Decls, e: &Expr, scope: &Scope<Range>) -> Result<Range, u32>
    requires nodes { nodes (expression e.now) < 2 ^ 32 }
    requires scaled { IsScaledAmong decls.now e.now scope.now }
    ensures range { range_found result ≡ range_among decls.now e.now scope.now }
    ensures below { FaultIsWithin (nodes (expression e.now)) result }
    ensures fit { IfOk result (λ r. IsFit (range r)) }
{
    match e {
        Expr::Lit { mant, scale } => range_of_literal(*mant, *scale),
        Expr::Var { back } => range_of_name(scope, *back),
        Expr::Obs { label, .. } => range_observed(decls, *label),
        Expr::Num { op, left, right } => range_of_num(decls, *op, left, right, scope),
        _ => range_of(decls, e, scope),
    }
}

// Of a number that is written.
fn range_of_literal(mant: i128, scale: u8) -> Result<Range, u32>
    requires { scale ≤ 27 }
    ensures range { range_found result ≡ ranged (fitting (single mant)) (Number scale) }
    ensures here { IfErr result (λ node. node ≡ 0) }
    ensures fit { IfOk result (λ r. IsFit (range r)) }
{
    checked(point(mant), Kind::Number { scale })
}

// Of a name.
fn range_of_name(scope: &Scope<Range>, back: u32) -> Result<Range, u32>
    requires { scale_of_kind (kind_or (slice_get (range_kinds (ranges_in scope.now)) back)) ≤ 27 }
    ensures range { range_found result
        ≡ named (range_or_truth (slice_get (ranges_in scope.now) back)) }
    ensures here { IfErr result (λ node. node ≡ 0) }
    ensures fit { IfOk result (λ r. IsFit (range r)) }
{
    let range = range_at(scope, back);
    checked(range.interval, range.kind)
}

// Of the negative of a number.
#[cycle(ranging)]
fn range_of_negative(decls: &Decls, of: &Expr, scope: &Scope<Range>) -> Result<Range, u32>
    requires nodes { nodes (expression of.now) + 1 < 2 ^ 32 }
    requires scaled { IsScaledAmong decls.now of.now scope.now }
    ensures range { range_found result ≡ range_within decls.now
        (Neg (expression of.now)) scope.now }
    ensures below { FaultIsWithin (nodes (expression of.now) + 1) result }
    ensures fit { IfOk result (λ r. IsFit (range r)) }
{
    let range = behind_node(range_of(decls, of, scope))?;
    negated(range)
}

// Of a truth value that is turned.
#[cycle(ranging)]
fn range_of_not(decls: &Decls, of: &Expr, scope: &Scope<Range>) -> Result<Range, u32>
    requires nodes { nodes (expression of.now) + 1 < 2 ^ 32 }
    requires scaled { IsScaledAmong decls.now of.now scope.now }
    ensures range { range_found result ≡ range_within decls.now
        (Not (expression of.now)) scope.now }
    ensures below { FaultIsWithin (nodes (expression of.now) + 1) result }
    ensures fit { IfOk result (λ r. IsFit (range r)) }
{
    behind_node(range_of(decls, of, scope))?;
    Ok(TRUTH)
}

// Of a number at more decimals.
#[cycle(ranging)]
fn range_of_widened(decls: &Decls, scale: u8, of: &Expr, scope: &Scope<Range>) -> Result<Range, u32>
    requires nodes { nodes (expression of.now) + 1 < 2 ^ 32 }
    requires scale { scale ≤ 27 }
    requires scaled { IsScaledAmong decls.now of.now scope.now }
    ensures range { range_found result ≡ range_within decls.now
        (Widen scale (expression of.now)) scope.now }
    ensures below { FaultIsWithin (nodes (expression of.now) + 1) result }
    ensures fit { IfOk result (λ r. IsFit (range r)) }
{
    let range = behind_node(range_of(decls, of, scope))?;
    widened(Kind::Number { scale }, range)
}

// Of a number that is rounded.
#[cycle(ranging)]
fn range_of_rounded(
    decls: &Decls,
    mode: Mode,
    scale: u8,
    of: &Expr,
    scope: &Scope<Range>,
) -> Result<Range, u32>
    requires nodes { nodes (expression of.now) + 1 < 2 ^ 32 }
    requires scale { scale ≤ 27 }
    requires scaled { IsScaledAmong decls.now of.now scope.now }
    ensures range { range_found result ≡ range_within decls.now
        (Round mode scale (expression of.now)) scope.now }
    ensures below { FaultIsWithin (nodes (expression of.now) + 1) result }
    ensures fit { IfOk result (λ r. IsFit (range r)) }
{
    let range = behind_node(range_of(decls, of, scope))?;
    rounded(mode, scale, range)
}

// Of an operator on two numbers.
#[cycle(ranging)]
fn range_of_num(
    decls: &Decls,
    op: NumOp,
    left: &Expr,
    right: &Expr,
    scope: &Scope<Range>,
) -> Result<Range, u32>
    requires nodes { nodes (expression left.now) + nodes (expression right.now) + 1 < 2 ^ 32 }
    requires scaled { IsScaledWithin decls.now
        (Num op (expression left.now) (expression right.now)) scope.now }
    ensures range { range_found result ≡ range_within decls.now
        (Num op (expression left.now) (expression right.now)) scope.now }
    ensures below { FaultIsWithin
        (nodes (expression left.now) + nodes (expression right.now) + 1) result }
    ensures fit { IfOk result (λ r. IsFit (range r)) }
{
    let both = ranges_of(decls, left, right, scope)?;
    combined(op, both.left, both.right)
}

// Of a comparison.
#[cycle(ranging)]
fn range_of_cmp(
    decls: &Decls,
    op: CmpOp,
    left: &Expr,
    right: &Expr,
    scope: &Scope<Range>,
) -> Result<Range, u32>
    requires nodes { nodes (expression left.now) + nodes (expression right.now) + 1 < 2 ^ 32 }
    requires left { IsScaledAmong decls.now left.now scope.now }
    requires right { IsScaledAmong decls.now right.now scope.now }
    ensures range { range_found result ≡ range_within decls.now
        (Cmp op (expression left.now) (expression right.now)) scope.now }
    ensures below { FaultIsWithin
        (nodes (expression left.now) + nodes (expression right.now) + 1) result }
    ensures fit { IfOk result (λ r. IsFit (range r)) }
{
    let both = ranges_of(decls, left, right, scope)?;
    compared(both.left, both.right)
}

// Of two truth values together.
#[cycle(ranging)]
fn range_of_logic(
    decls: &Decls,
    op: LogicOp,
    left: &Expr,
    right: &Expr,
    scope: &Scope<Range>,
) -> Result<Range, u32>
    requires nodes { nodes (expression left.now) + nodes (expression right.now) + 1 < 2 ^ 32 }
    requires left { IsScaledAmong decls.now left.now scope.now }
    requires right { IsScaledAmong decls.now right.now scope.now }
    ensures range { range_found result ≡ range_within decls.now
        (Logic op (expression left.now) (expression right.now)) scope.now }
    ensures below { FaultIsWithin
        (nodes (expression left.now) + nodes (expression right.now) + 1) result }
    ensures fit { IfOk result (λ r. IsFit (range r)) }
{
    ranges_of(decls, left, right, scope)?;
    Ok(TRUTH)
}

// Of a quotient.
#[cycle(ranging)]
fn range_of_quotient(
    decls: &Decls,
    mode: Mode,
    scale: u8,
    top: &Expr,
    below: &Expr,
    scope: &Scope<Range>,
) -> Result<Range, u32>
    requires nodes { nodes (expression top.now) + nodes (expression below.now) + 1 < 2 ^ 32 }
    requires scaled { IsScaledWithin decls.now
        (Div mode scale (expression top.now) (expression below.now)) scope.now }
    ensures range { range_found result ≡ range_within decls.now
        (Div mode scale (expression top.now) (expression below.now)) scope.now }
    ensures below { FaultIsWithin
        (nodes (expression top.now) + nodes (expression below.now) + 1) result }
    ensures fit { IfOk result (λ r. IsFit (range r)) }
{
    let both = ranges_of(decls, top, below, scope)?;
    divided(mode, scale, both.left, both.right)
}

// Of one of two, by a test.
#[cycle(ranging)]
fn range_of_choice(
    decls: &Decls,
    test: &Expr,
    yes: &Expr,
    no: &Expr,
    scope: &Scope<Range>,
) -> Result<Range, u32>
    requires nodes { nodes (Cond (expression test.now) (expression yes.now) (expression no.now))
        < 2 ^ 32 }
    requires scaled { IsScaledWithin decls.now
        (Cond (expression test.now) (expression yes.now) (expression no.now)) scope.now }
    ensures range { range_found result ≡ range_within decls.now
        (Cond (expression test.now) (expression yes.now) (expression no.now)) scope.now }
    ensures below { FaultIsWithin
        (nodes (Cond (expression test.now) (expression yes.now) (expression no.now))) result }
    ensures fit { IfOk result (λ r. IsFit (range r)) }
{
    behind_node(range_of(decls, test, scope))?;
    let both = ranges_after(decls, test, yes, no, scope)?;
    either(both.left, both.right)
}

// The interval of one mantissa.
fn point(m: i128) -> Interval
    ensures { interval result ≡ single m }
{
    Interval { low: m, high: m }
}

// Of the two operands of a node.
#[inline(always)]
#[cycle(ranging)]
fn ranges_of(
    decls: &Decls,
    left: &Expr,
    right: &Expr,
    scope: &Scope<Range>,
) -> Result<Operands, u32>
    requires nodes { nodes (expression left.now) + nodes (expression right.now) + 1 < 2 ^ 32 }
    requires left { IsScaledAmong decls.now left.now scope.now }
    requires right { IsScaledAmong decls.now right.now scope.now }
    ensures ranges { operands_found result ≡ operands (nodes (expression left.now))
        (range_among decls.now left.now scope.now) (range_among decls.now right.now scope.now) }
    ensures below { FaultIsWithin
        (nodes (expression left.now) + nodes (expression right.now) + 1) result }
    ensures fit { IfOk result AreFit }
{
    let left_range = behind_node(range_of_part(decls, left, scope))?;
    let right_range = behind(left, range_of_part(decls, right, scope))?;
    Ok(Operands {
        left: left_range,
        right: right_range,
    })
}

// Of the two that follow the first part.
#[cycle(ranging)]
fn ranges_after(
    decls: &Decls,
    before: &Expr,
    left: &Expr,
    right: &Expr,
    scope: &Scope<Range>,
) -> Result<Operands, u32>
    requires nodes { nodes (expression before.now)
        + nodes (expression left.now) + nodes (expression right.now) + 1 < 2 ^ 32 }
    requires left { IsScaledAmong decls.now left.now scope.now }
    requires right { IsScaledAmong decls.now right.now scope.now }
    ensures ranges { operands_found result ≡ moved (nodes (expression before.now))
        (operands (nodes (expression left.now))
        (range_among decls.now left.now scope.now) (range_among decls.now right.now scope.now)) }
    ensures below { FaultIsWithin (nodes (expression before.now)
        + nodes (expression left.now) + nodes (expression right.now) + 1) result }
    ensures fit { IfOk result AreFit }
{
    match ranges_of(decls, left, right, scope) {
        Ok(both) => Ok(both),
        Err(node) => Err(nodes_in(before) + node),
    }
}

// Of an accumulator.
#[cycle(ranging)]
fn range_of_acc(
    decls: &Decls,
    body: &Expr,
    days: u32,
    first: &Expr,
    scope: &Scope<Range>,
) -> Result<Range, u32>
    requires nodes { nodes (expression body.now) + nodes (expression first.now) + 1 < 2 ^ 32 }
    requires scaled { IsScaledWithin decls.now
        (Acc (expression body.now) days (expression first.now)) scope.now }
    ensures range { range_found result ≡ range_within decls.now
        (Acc (expression body.now) days (expression first.now)) scope.now }
    ensures below { FaultIsWithin
        (nodes (expression body.now) + nodes (expression first.now) + 1) result }
    ensures fit { IfOk result (λ r. IsFit (range r)) }
{
    let start = behind(body, range_of(decls, first, scope))?;
    accumulated(decls, body, days, start, scope)
}

// Of an accumulator after some days, each of which tries the body anew with the range so far for
// its name. A day that leaves the range as it was is followed by such days alone.
#[cycle(ranging)]
fn accumulated(
    decls: &Decls,
    body: &Expr,
    days: u32,
    start: Range,
    scope: &Scope<Range>,
) -> Result<Range, u32>
    requires nodes { nodes (expression body.now) + 1 < 2 ^ 32 }
    requires scaled { IsBodyScaled decls.now body.now start.kind scope.now }
    requires start { IsFit (range start) }
    ensures range { range_found result
        ≡ days_tried days (day_among decls.now body.now scope.now) (range start) }
    ensures below { FaultIsWithin (nodes (expression body.now) + 1) result }
    ensures fit { IfOk result (λ r. IsFit (range r)) }
{
    if let Some(range) = added_up(decls, body, days, start, scope)? {
        return Ok(range);
    }
    let mut so_far = start;
    for _day in 0..days {
        let next = range_of_day(decls, body, so_far, scope)?;
        if is_same(next, so_far) {
            return Ok(so_far);
        }
        so_far = next;
    }
    Ok(so_far)
}

// Of an accumulator that adds the same range on each day, by that of its body on the first one;
// none where it may not, or where a day could be at fault.
#[cycle(ranging)]
fn added_up(
    decls: &Decls,
    body: &Expr,
    days: u32,
    start: Range,
    scope: &Scope<Range>,
) -> Result<Option<Range>, u32>
    requires nodes { nodes (expression body.now) + 1 < 2 ^ 32 }
    requires scaled { IsBodyScaled decls.now body.now start.kind scope.now }
    requires start { IsFit (range start) }
    ensures range { TellsDays result
        (days_tried days (day_among decls.now body.now scope.now) (range start)) }
    ensures below { FaultIsWithin (nodes (expression body.now) + 1) result }
{
    if days < 2 || !adds_alike(body) {
        return Ok(None);
    }
    let next = range_of_body(decls, body, start, scope)?;
    Ok(after_days(start, next, days))
}

// Of an accumulator's body, with a range for its name.
#[inline(always)]
#[cycle(ranging)]
fn range_of_body(
    decls: &Decls,
    body: &Expr,
    so_far: Range,
    scope: &Scope<Range>,
) -> Result<Range, u32>
    requires nodes { nodes (expression body.now) + 1 < 2 ^ 32 }
    requires scaled { IsBodyScaled decls.now body.now so_far.kind scope.now }
    ensures range { range_found result ≡ body_among decls.now body.now scope.now (range so_far) }
    ensures below { FaultIsWithin (nodes (expression body.now) + 1) result }
    ensures fit { IfOk result (λ r. IsFit (range r)) }
{
    let inner = Scope::Bound {
        held: so_far,
        outer: &*scope,
    };
    behind_node(range_of_part(decls, body, &inner))
}

// Of an accumulator after one more day.
#[cycle(ranging)]
fn range_of_day(
    decls: &Decls,
    body: &Expr,
    so_far: Range,
    scope: &Scope<Range>,
) -> Result<Range, u32>
    requires nodes { nodes (expression body.now) + 1 < 2 ^ 32 }
    requires scaled { IsBodyScaled decls.now body.now so_far.kind scope.now }
    requires so_far { IsFit (range so_far) }
    ensures range { range_found result ≡ day_among decls.now body.now scope.now (range so_far) }
    ensures below { FaultIsWithin (nodes (expression body.now) + 1) result }
    ensures fit { IfOk result (IsFitOfKind so_far.kind) }
{
    let next = range_of_body(decls, body, so_far, scope)?;
    widened(so_far.kind, next)
}
