//! Expressions of which parts are replaced. A walk that rewrites an expression answers nothing
//! where it changes nothing, so that what stays takes no memory; these put a node together from
//! what its parts come to.

ghost use Rattle.std.specs.Prelude.{◌≡◌, IfOk};
ghost use Rattle.term_model.specs.Terms.{expression, Cond};
ghost use Rattle.rewriting.specs.Replacing.{literal_of};
ghost use Rattle.rewriting.specs.Measures.{size};
ghost use Rattle.rewriting.specs.Rebuilding.{after, choice_after, over_one, over_two, two_after, IfAllAreLess, IfBothAreLess, IsLess, IsLessByParts};

use decimal::NoMemory;
use std::alloc::Global;
use term_model::{Expr, Kind, Value};

/// The literal of a value of a kind.
pub fn literal(kind: Kind, value: Value) -> Expr
    ensures literal { expression result ≡ literal_of kind value }
    ensures one { size (expression result) ≡ 1 }
{
    match kind {
        Kind::Truth => Expr::Yes {
            value: value.is_true(),
        },
        Kind::Number { scale } => Expr::Lit {
            mant: value.number(),
            scale,
        },
    }
}

/// What took the place of a part, or a copy of the part.
pub fn kept(alloc: Global, part: &Expr, new: Option<Expr>) -> Result<Expr, NoMemory>
    ensures { IfOk result (λ r. expression r ≡ after (expression part.now) new) }
{
    match new {
        Some(new) => Ok(new),
        None => part.copy(alloc),
    }
}

// The same in a box.
fn boxed(alloc: Global, part: &Expr, new: Option<Expr>) -> Result<Box<Expr>, NoMemory>
    ensures { IfOk result (λ r. expression r.value ≡ after (expression part.now) new) }
{
    let part = kept(alloc, part, new)?;
    Ok(Box::new(alloc, part)?)
}

/// A node over one part, once something may have taken the place of the part.
pub fn of_one(
    alloc: Global,
    e: &Expr,
    part: &Expr,
    new: Option<Expr>,
) -> Result<Option<Expr>, NoMemory>
    requires { over_one (expression e.now) (expression part.now) ≡ expression e.now }
    ensures same { IfOk result (λ r. after (expression e.now) r
        ≡ over_one (expression e.now) (after (expression part.now) new)) }
    ensures less { IfOk result (λ r. IsLess new (expression part.now)
        → IsLess r (expression e.now)) }
{
    let Some(new) = new else {
        return Ok(None);
    };
    let of = Box::new(alloc, new)?;
    match e {
        Expr::Neg { .. } => Ok(Some(Expr::Neg { of })),
        Expr::Not { .. } => Ok(Some(Expr::Not { of })),
        Expr::Widen { scale, .. } => Ok(Some(Expr::Widen { scale: *scale, of })),
        Expr::Round { mode, scale, .. } => Ok(Some(Expr::Round {
            mode: *mode,
            scale: *scale,
            of,
        })),
        _ => Ok(None),
    }
}

// A node over two parts with new ones.
fn with_two(e: &Expr, left: Box<Expr>, right: Box<Expr>) -> Option<Expr>
    ensures same { after (expression e.now) result
        ≡ over_two (expression e.now) (expression left.value) (expression right.value) }
    ensures less { IsLessByParts (expression e.now) (expression left.value)
        (expression right.value) result }
{
    match e {
        Expr::Num { op, .. } => Some(Expr::Num {
            op: *op,
            left,
            right,
        }),
        Expr::Cmp { op, .. } => Some(Expr::Cmp {
            op: *op,
            left,
            right,
        }),
        Expr::Logic { op, .. } => Some(Expr::Logic {
            op: *op,
            left,
            right,
        }),
        Expr::Div { mode, scale, .. } => Some(Expr::Div {
            mode: *mode,
            scale: *scale,
            top: left,
            below: right,
        }),
        Expr::Acc { days, .. } => Some(Expr::Acc {
            body: left,
            days: *days,
            first: right,
        }),
        _ => None,
    }
}

/// A node over two parts, once something may have taken the place of either.
pub fn of_two(
    alloc: Global,
    e: &Expr,
    left: &Expr,
    right: &Expr,
    one: Option<Expr>,
    two: Option<Expr>,
) -> Result<Option<Expr>, NoMemory>
    requires { over_two (expression e.now) (expression left.now) (expression right.now)
        ≡ expression e.now }
    ensures same { IfOk result (λ r. after (expression e.now) r
        ≡ two_after e.now left.now one right.now two) }
    ensures less { IfOk result
        (λ r. IfBothAreLess left.now one right.now two (IsLess r (expression e.now))) }
{
    if one.is_none() && two.is_none() {
        return Ok(None);
    }
    let left = boxed(alloc, left, one)?;
    let right = boxed(alloc, right, two)?;
    Ok(with_two(e, left, right))
}

/// A choice, once something may have taken the place of each of its parts.
pub fn of_three(
    alloc: Global,
    e: &Expr,
    test: &Expr,
    yes: &Expr,
    no: &Expr,
    one: Option<Expr>,
    two: Option<Expr>,
    three: Option<Expr>,
) -> Result<Option<Expr>, NoMemory>
    requires { expression e.now ≡ Cond (expression test.now) (expression yes.now)
        (expression no.now) }
    ensures same { IfOk result (λ r. after (expression e.now) r
        ≡ choice_after test.now one yes.now two no.now three) }
    ensures less { IfOk result
        (λ r. IfAllAreLess test.now one yes.now two no.now three (IsLess r (expression e.now))) }
{
    if one.is_none() && two.is_none() && three.is_none() {
        return Ok(None);
    }
    let test = boxed(alloc, test, one)?;
    let yes = boxed(alloc, yes, two)?;
    let no = boxed(alloc, no, three)?;
    Ok(Some(Expr::Cond { test, yes, no }))
}
