//! Tests over many days whose parts are observed: each part is looked up once, and then goes
//! through the days of its label.

ghost use Rattle.std.specs.Prelude.{◌≡◌, ◌*ℤ◌, IfSome};
ghost use Rattle.term_model.specs.Terms.{expression};
ghost use Rattle.expr_eval.specs.Bindings.{bindings};
ghost use Rattle.expr_eval.specs.Evaluations.{answer_in, comparison_over, logic_over};
ghost use Rattle.expr_eval.specs.Searches.{AreNear, IsFlagStop, IsStop, IsStopOfEither, alike};
ghost use Rattle.expr_eval.specs.Stops.{wanted_of};
ghost use Rattle.expr_eval.specs.Operations.{combined};
ghost use Rattle.expr_eval.specs.Watching.{IsAgainst, IsWatched, Stands, observed_later, turned};

use crate::bindings::Bindings;
use crate::comparisons::factors_of;
use crate::evaluation::value_bound;
use crate::kinds::kind_observed;
use crate::operations::{Typed, is_decided, number};
use crate::stops::{Stop, is_wanted};
use crate::truths::truth_bound;
use crate::watches::{Trial, Watch, first_met, in_word};
use fixing_files::Fixings;
use term_model::{CmpOp, Decls, Expr, LogicOp, Missing, NumOp, day_read, days_later};

// The value of a side that is the same on each day: of a literal, or of a name whose value is
// known.
fn standing(e: &Expr, names: &Bindings) -> Option<Typed>
    ensures { IfSome result (λ v. Stands (expression e.now) (bindings names.now) v) }
{
    match e {
        Expr::Lit { mant, scale } => Some(number(*scale, *mant)),
        Expr::Var { back } => value_bound(names, *back).ok(),
        _ => None,
    }
}

// The same comparison with its sides in the other order.
fn turned(op: CmpOp) -> CmpOp
    ensures { result ≡ turned op }
{
    match op {
        CmpOp::Less => CmpOp::Greater,
        CmpOp::LessEq => CmpOp::GreaterEq,
        CmpOp::Greater => CmpOp::Less,
        CmpOp::GreaterEq => CmpOp::LessEq,
        CmpOp::Equal => CmpOp::Equal,
        CmpOp::Unequal => CmpOp::Unequal,
    }
}

// A number times a factor.
fn times(x: i128, factor: i128) -> Option<i128>
    ensures { IfSome result (λ y. y ≡ x *ℤ factor) }
{
    x.checked_mul(factor)
}

// A watch of what is observed, on the left of a comparison with a value; none where numbers at one
// scale could be too large for it.
fn watch_against(
    decls: &Decls,
    op: CmpOp,
    label: u32,
    offset: i32,
    bound: Typed,
    wanted: bool,
) -> Option<Watch>
    ensures { IfSome result (λ w. IsAgainst op (observed_later decls.now label offset) bound
        wanted w) }
{
    let i = kind_observed(decls, label).scale();
    let j = bound.kind.scale();
    if i > 27 || j > 27 {
        return None;
    }
    let by = factors_of(i, j);
    let factor = in_word(by.left)?;
    let bound = times(bound.value.number(), by.right)?;
    Some(Watch {
        label,
        offset,
        trial: Trial::Number { op, factor, bound },
        wanted,
    })
}

// A bound and a number that goes over to it, added or taken, at the greater of their scales; none
// where 128 bits do not hold what this makes.
fn bound_moved(op: NumOp, bound: Typed, by: Typed) -> Option<Typed>
    ensures { IfSome result (λ v. v ≡ combined op bound by) }
{
    let i = bound.kind.scale();
    let j = by.kind.scale();
    if i > 27 || j > 27 {
        return None;
    }
    let factors = factors_of(i, j);
    let x = times(bound.value.number(), factors.left)?;
    let y = times(by.value.number(), factors.right)?;
    match op {
        NumOp::Plus => Some(number(i.max(j), x.checked_add(y)?)),
        NumOp::Minus => Some(number(i.max(j), x.checked_sub(y)?)),
        _ => None,
    }
}

// A watch of one side of a comparison, where the other one has a value. The side is observed, or it
// is the sum or the difference of such a side and of what stays the same, which goes over.
fn watch_side(
    decls: &Decls,
    op: CmpOp,
    side: &Expr,
    bound: Typed,
    wanted: bool,
    names: &Bindings,
) -> Option<Watch>
    ensures { IfSome result (λ w. IsAgainst op
        (answer_in decls.now (expression side.now) names.now) bound wanted w) }
{
    match side {
        Expr::Obs { label, offset } => watch_against(decls, op, *label, *offset, bound, wanted),
        Expr::Num {
            op: NumOp::Plus,
            left,
            right,
        } => match standing(right, names) {
            Some(more) => {
                let bound = bound_moved(NumOp::Minus, bound, more)?;
                watch_side(decls, op, left, bound, wanted, names)
            }
            None => {
                let more = standing(left, names)?;
                let bound = bound_moved(NumOp::Minus, bound, more)?;
                watch_side(decls, op, right, bound, wanted, names)
            }
        },
        Expr::Num {
            op: NumOp::Minus,
            left,
            right,
        } => {
            let less = standing(right, names)?;
            let bound = bound_moved(NumOp::Plus, bound, less)?;
            watch_side(decls, op, left, bound, wanted, names)
        }
        _ => None,
    }
}

// A watch of a comparison of which one side stays the same.
fn watch_of(
    decls: &Decls,
    op: CmpOp,
    left: &Expr,
    right: &Expr,
    wanted: bool,
    names: &Bindings,
) -> Option<Watch>
    ensures { IfSome result (λ w. IsWatched decls.now (comparison_over op left.now right.now)
        wanted names.now w) }
{
    match standing(right, names) {
        Some(bound) => watch_side(decls, op, left, bound, wanted, names),
        None => {
            let bound = standing(left, names)?;
            watch_side(decls, turned(op), right, bound, wanted, names)
        }
    }
}

// Where a comparison stops of which one side stays the same.
fn search_compared(
    decls: &Decls,
    op: CmpOp,
    left: &Expr,
    right: &Expr,
    wanted: bool,
    names: &Bindings,
    fixings: &Fixings,
    from: i64,
    days: u32,
) -> Option<Stop>
    requires { AreNear from days }
    ensures { IfSome result (λ s. IsStop decls.now (comparison_over op left.now right.now)
        wanted names.now fixings.now from days s) }
{
    let watch = watch_of(decls, op, left, right, wanted, names)?;
    first_met(watch, fixings, day_read(from, watch.offset), days)
}

// Where a flag stops.
fn search_observed(
    label: u32,
    offset: i32,
    wanted: bool,
    fixings: &Fixings,
    from: i64,
    days: u32,
) -> Option<Stop>
    requires { AreNear from days }
    ensures { IfSome result (λ s. IsFlagStop label offset wanted fixings.now from days s) }
{
    let watch = Watch {
        label,
        offset,
        trial: Trial::Flag,
        wanted,
    };
    first_met(watch, fixings, day_read(from, offset), days)
}

// Where a test stops that answers the same on each day.
fn search_alike(found: Result<bool, Missing>, wanted: bool, days: u32) -> Stop
    ensures { result ≡ alike (wanted_of wanted found) days }
{
    if days == 0 {
        return Stop::Never;
    }
    match found {
        Ok(found) => {
            if is_wanted(wanted, found) {
                Stop::Met { day: 0 }
            } else {
                Stop::Never
            }
        }
        Err(missing) => Stop::Lacking { day: 0, missing },
    }
}

/// Where a test stops that is tried on one day after another until it has the truth value that is
/// wanted; none where it is no joint of flags, of names, and of comparisons between an observable,
/// or its sum or difference with what stays the same, and what stays the same. It reads further
/// than it stops, by some days, and takes no memory.
#[cycle(searches)]
pub fn search(
    decls: &Decls,
    test: &Expr,
    wanted: bool,
    names: &Bindings,
    fixings: &Fixings,
    from: i64,
    days: u32,
) -> Option<Stop>
    requires { AreNear from days }
    ensures { IfSome result (λ s. IsStop decls.now (expression test.now) wanted names.now
        fixings.now from days s) }
{
    match test {
        Expr::Yes { value } => Some(search_alike(Ok(*value), wanted, days)),
        Expr::Var { back } => Some(search_alike(truth_bound(names, *back), wanted, days)),
        Expr::Obs { label, offset } => {
            search_observed(*label, *offset, wanted, fixings, from, days)
        }
        Expr::Cmp { op, left, right } => {
            search_compared(decls, *op, left, right, wanted, names, fixings, from, days)
        }
        Expr::Not { of } => search(decls, of, !wanted, names, fixings, from, days),
        Expr::Logic { op, left, right } => {
            search_joined(decls, *op, left, right, wanted, names, fixings, from, days)
        }
        _ => None,
    }
}

// So many days are looked through for the left one of two tests, before the right one is.
const STRETCH: u32 = 256;

// Where two tests stop together, of which either decides.
#[cycle(searches)]
fn search_joined(
    decls: &Decls,
    op: LogicOp,
    left: &Expr,
    right: &Expr,
    wanted: bool,
    names: &Bindings,
    fixings: &Fixings,
    from: i64,
    days: u32,
) -> Option<Stop>
    requires { AreNear from days }
    ensures { IfSome result (λ s. IsStop decls.now (logic_over op left.now right.now)
        wanted names.now fixings.now from days s) }
{
    if !is_decided(op, wanted) {
        return None;
    }
    let mut done = 0;
    while done < days {
        let count = STRETCH.min(days - done);
        let first = days_later(from, done);
        let stop = search_either(decls, left, right, wanted, names, fixings, first, count)?;
        if !stop.goes_on() {
            return Some(stop.counted_from(done));
        }
        done += count;
    }
    Some(Stop::Never)
}

// Where either of two tests stops, the left one first.
#[cycle(searches)]
fn search_either(
    decls: &Decls,
    left: &Expr,
    right: &Expr,
    wanted: bool,
    names: &Bindings,
    fixings: &Fixings,
    from: i64,
    days: u32,
) -> Option<Stop>
    requires { AreNear from days }
    ensures { IfSome result (λ s. IsStopOfEither decls.now left.now right.now wanted names.now
        fixings.now from days s) }
{
    let stop = search(decls, left, wanted, names, fixings, from, days)?;
    let before = stop.days_before(days);
    let next = search(decls, right, wanted, names, fixings, from, before)?;
    Some(if next.goes_on() { stop } else { next })
}
