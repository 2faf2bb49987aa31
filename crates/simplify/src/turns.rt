//! A turn of an expression: its parts are turned, and then the whole, where it is a redex that asks
//! for no frame. A function pays at entry for the locals of all its arms, so each form with parts
//! has a function of its own, a leaf pays for none of them, and what is built anew is built apart
//! from where nothing changes.

ghost use Rattle.std.specs.Prelude.{◌≡◌, ◌≤◌, ◌<◌, ◌+◌, IfOk, Ok, None, max};
ghost use Rattle.term_model.specs.Declarations.{declarations};
ghost use Rattle.term_model.specs.Terms.{expression, Expression, Logic, Cond, Acc};
ghost use Rattle.term_model.specs.declared.values.Kind.TheVariants.{Truth};
ghost use Rattle.term_model.specs.Kinds.{scale_of_kind};
ghost use Rattle.term_model.specs.Branches.{either};
ghost use Rattle.interval_check.specs.RangeTrials.{kind_found};
ghost use Rattle.rewriting.specs.Replacing.{branch_at};
ghost use Rattle.rewriting.specs.Measures.{size};
ghost use Rattle.rewriting.specs.Rebuilding.{after, over_one, over_two, two_after, IfAllAreLess};
ghost use Rattle.rewriting.specs.Rebuilding.{IfBothAreLess, IsLess};
ghost use Rattle.term_model.specs.Scopes.{held_in};
ghost use Rattle.simplify.specs.Folding.{folded, CanFold};
ghost use Rattle.simplify.specs.Turnable.{CanTurn, FoldsTo, truth_literal};
ghost use Rattle.simplify.specs.Turning.{turned};
ghost use Rattle.simplify.specs.TurnAnswers as model;
ghost use Rattle.simplify.specs.TurnAnswers.{decided_after, logic_after, one_turned};
ghost use Rattle.simplify.specs.TurnAnswers.{CanTurnTwo, IsTurnOf, IsTurnOfOne, IsTurnOfTwo};
ghost use Rattle.simplify.specs.TurnAnswers.{ScalesFit};

use crate::folding::{has_literals, is_literal, ruled};
use crate::names::kind_at;
use decimal::NoMemory;
use expr_eval::kind_observed;
use expr_eval::operations::{is_decided, scale_of_both};
use rewriting::{kept, of_one, of_three, of_two};
use std::alloc::Global;
use term_model::{Decls, Expr, Kind, LogicOp, Scope};

/// What an expression turns into, and nothing where it stays as it is; and its kind, which a turn
/// keeps.
#[derive(Drop)]
pub struct Turned {
    pub kind: Kind,
    pub new: Option<Expr>,
}

fn truth_literal(e: &Expr) -> Option<bool>
    ensures { result ≡ truth_literal (expression e.now) }
{
    match e {
        Expr::Yes { value } => Some(*value),
        _ => None,
    }
}

/// The truth value that a part is, once something may have taken its place.
pub fn truth_after(part: &Expr, new: &Option<Expr>) -> Option<bool>
    ensures { result ≡ truth_literal (after (expression part.now) new.now) }
{
    match new {
        Some(new) => truth_literal(new),
        None => truth_literal(part),
    }
}

// What `&` and `|` come to, once their sides are turned.
#[tactic(auto, using(rewriting::proofs::SizeFacts::some_size, crate::proofs::LessFacts::no_more))]
fn turn_logic(
    alloc: Global,
    e: &Expr,
    op: LogicOp,
    left: &Expr,
    right: &Expr,
    one: Option<Expr>,
    two: Option<Expr>,
) -> Result<Option<Expr>, NoMemory>
    requires { expression e.now ≡ Logic op (expression left.now) (expression right.now) }
    ensures same { IfOk result (λ r.
        after (expression e.now) r ≡ logic_after op left.now one right.now two) }
    ensures less { IfOk result (λ r.
        IfBothAreLess left.now one right.now two (IsLess r (expression e.now))) }
{
    match truth_after(left, &one) {
        Some(value) => {
            if is_decided(op, value) {
                Ok(Some(Expr::Yes { value }))
            } else {
                Ok(Some(kept(alloc, right, two)?))
            }
        }
        None => of_two(alloc, e, left, right, one, two),
    }
}

// A branch, widened to a scale where that is greater.
#[tactic(auto, using(crate::proofs::LessFacts::no_more))]
fn branch(alloc: Global, part: &Expr, to: Turned, scale: u8) -> Result<Expr, NoMemory>
    ensures same { IfOk result (λ r.
        expression r ≡ branch_at (scale_of_kind to.kind) scale
        (after (expression part.now) to.new)) }
    ensures less { IfOk result (λ r.
        IsLess to.new (expression part.now)
        → size (expression r) ≤ size (expression part.now) + 1) }
{
    let below = to.kind.scale() < scale;
    let part = kept(alloc, part, to.new)?;
    if below {
        let of = Box::new(alloc, part)?;
        Ok(Expr::Widen { scale, of })
    } else {
        Ok(part)
    }
}

// What a choice comes to, once its parts are turned.
#[tactic(auto, using(rewriting::proofs::SizeFacts::some_size))]
fn turn_choice(
    alloc: Global,
    e: &Expr,
    test: &Expr,
    yes: &Expr,
    no: &Expr,
    decision: Option<Expr>,
    one: Turned,
    two: Turned,
) -> Result<Option<Expr>, NoMemory>
    requires { expression e.now
        ≡ Cond (expression test.now) (expression yes.now) (expression no.now) }
    ensures same { IfOk result (λ r.
        after (expression e.now) r ≡ decided_after test.now decision yes.now one no.now two) }
    ensures less { IfOk result (λ r.
        IfAllAreLess test.now decision yes.now one.new no.now two.new
        (IsLess r (expression e.now))) }
{
    let scale = one.kind.scale().max(two.kind.scale());
    match truth_after(test, &decision) {
        Some(true) => Ok(Some(branch(alloc, yes, one, scale)?)),
        Some(false) => Ok(Some(branch(alloc, no, two, scale)?)),
        None => of_three(alloc, e, test, yes, no, decision, one.new, two.new),
    }
}

// What stays as it is.
fn unchanged(kind: Kind) -> Result<Turned, NoMemory>
    ensures { result ≡ Ok (record { kind = kind; new = None }) }
{
    Ok(Turned { kind, new: None })
}

// The kind of an operator on one operand, by the kind of that.
fn kind_over_one(e: &Expr, part: Kind) -> Kind
    ensures { result ≡ model.kind_over_one (expression e.now) part }
{
    match e {
        Expr::Neg { .. } => Kind::Number {
            scale: part.scale(),
        },
        Expr::Widen { scale, .. } => Kind::Number { scale: *scale },
        Expr::Round { scale, .. } => Kind::Number { scale: *scale },
        _ => Kind::Truth,
    }
}

// The kind of an operator on two operands, by the kinds of those.
fn kind_over_two(e: &Expr, left: Kind, right: Kind) -> Kind
    requires { ScalesFit (expression e.now) left right }
    ensures { result ≡ model.kind_over_two (expression e.now) left right }
{
    match e {
        Expr::Num { op, .. } => Kind::Number {
            scale: scale_of_both(*op, left, right),
        },
        Expr::Div { scale, .. } => Kind::Number { scale: *scale },
        _ => Kind::Truth,
    }
}

// An operator over what its operand turned into.
fn rebuilt_one(alloc: Global, e: &Expr, part: &Expr, one: Turned) -> Result<Turned, NoMemory>
    requires whole { over_one (expression e.now) (expression part.now) ≡ expression e.now }
    requires fits { CanFold (over_one (expression e.now) (after (expression part.now) one.new)) }
    ensures same { IfOk result (λ r. after (expression e.now) r.new
        ≡ folded (over_one (expression e.now) (after (expression part.now) one.new))) }
    ensures kind { IfOk result (λ r. r.kind ≡ model.kind_over_one (expression e.now) one.kind) }
    ensures less { IfOk result (λ r.
        IsLess one.new (expression part.now) → IsLess r.new (expression e.now)) }
{
    let kind = kind_over_one(e, one.kind);
    let parts = of_one(alloc, e, part, one.new)?;
    Ok(Turned {
        kind,
        new: ruled(e, parts),
    })
}

// An operator over what its two operands turned into.
fn rebuilt_two(
    alloc: Global,
    e: &Expr,
    left: &Expr,
    right: &Expr,
    one: Turned,
    two: Turned,
) -> Result<Turned, NoMemory>
    requires whole { over_two (expression e.now) (expression left.now) (expression right.now)
        ≡ expression e.now }
    requires fits { CanFold (two_after e.now left.now one.new right.now two.new) }
    requires scales { ScalesFit (expression e.now) one.kind two.kind }
    ensures same { IfOk result (λ r.
        after (expression e.now) r.new
        ≡ folded (two_after e.now left.now one.new right.now two.new)) }
    ensures kind { IfOk result (λ r.
        r.kind ≡ model.kind_over_two (expression e.now) one.kind two.kind) }
    ensures less { IfOk result (λ r.
        IfBothAreLess left.now one.new right.now two.new (IsLess r.new (expression e.now))) }
{
    let kind = kind_over_two(e, one.kind, two.kind);
    let parts = of_two(alloc, e, left, right, one.new, two.new)?;
    Ok(Turned {
        kind,
        new: ruled(e, parts),
    })
}

// `&` and `|` over what their sides turned into.
fn rebuilt_sides(
    alloc: Global,
    e: &Expr,
    op: LogicOp,
    left: &Expr,
    right: &Expr,
    one: Option<Expr>,
    two: Option<Expr>,
) -> Result<Turned, NoMemory>
    requires { expression e.now ≡ Logic op (expression left.now) (expression right.now) }
    ensures same { IfOk result (λ r.
        after (expression e.now) r.new ≡ logic_after op left.now one right.now two) }
    ensures kind { IfOk result (λ r. r.kind ≡ Truth) }
    ensures less { IfOk result (λ r.
        IfBothAreLess left.now one right.now two (IsLess r.new (expression e.now))) }
{
    let new = turn_logic(alloc, e, op, left, right, one, two)?;
    Ok(Turned {
        kind: Kind::Truth,
        new,
    })
}

// A choice over what its parts turned into.
fn rebuilt_branches(
    alloc: Global,
    e: &Expr,
    test: &Expr,
    yes: &Expr,
    no: &Expr,
    decision: Option<Expr>,
    one: Turned,
    two: Turned,
) -> Result<Turned, NoMemory>
    requires { expression e.now
        ≡ Cond (expression test.now) (expression yes.now) (expression no.now) }
    ensures same { IfOk result (λ r.
        after (expression e.now) r.new ≡ decided_after test.now decision yes.now one no.now two) }
    ensures kind { IfOk result (λ r. r.kind ≡ either one.kind two.kind) }
    ensures less { IfOk result (λ r.
        IfAllAreLess test.now decision yes.now one.new no.now two.new
        (IsLess r.new (expression e.now))) }
{
    let kind = one.kind.either(two.kind);
    let new = turn_choice(alloc, e, test, yes, no, decision, one, two)?;
    Ok(Turned { kind, new })
}

// An accumulator of no days, which is its start.
fn start_alone(alloc: Global, first: &Expr, one: Turned) -> Result<Turned, NoMemory>
    ensures same { IfOk result (λ r.
        (x : Expression) → after x r.new ≡ after (expression first.now) one.new) }
    ensures kind { IfOk result (λ r. r.kind ≡ one.kind) }
    ensures less { IfOk result (λ r. (x : Expression) → IsLess one.new (expression first.now)
        → size (expression first.now) < size x → IsLess r.new x) }
{
    let kind = one.kind;
    let first = kept(alloc, first, one.new)?;
    Ok(Turned {
        kind,
        new: Some(first),
    })
}

// An accumulator over what its body and its start turned into.
fn rebuilt_steps(
    alloc: Global,
    e: &Expr,
    body: &Expr,
    first: &Expr,
    two: Option<Expr>,
    one: Turned,
) -> Result<Turned, NoMemory>
    requires { over_two (expression e.now) (expression body.now) (expression first.now)
        ≡ expression e.now }
    ensures same { IfOk result (λ r.
        after (expression e.now) r.new ≡ two_after e.now body.now two first.now one.new) }
    ensures kind { IfOk result (λ r. r.kind ≡ one.kind) }
    ensures less { IfOk result (λ r.
        IfBothAreLess body.now two first.now one.new (IsLess r.new (expression e.now))) }
{
    let kind = one.kind;
    let new = of_two(alloc, e, body, first, two, one.new)?;
    Ok(Turned { kind, new })
}

/// What an expression turns into, among names of these kinds.
#[cycle(turning)]
pub fn turn(alloc: Global, decls: &Decls, e: &Expr, names: &Scope<Kind>) -> Result<Turned, NoMemory>
    requires { CanTurn (declarations decls.now) (expression e.now) (held_in names.now) }
    ensures same { IfOk result (λ r.
        IsTurnOf (declarations decls.now) (held_in names.now) e.now r.new) }
    ensures kind { IfOk result (λ r.
        r.kind ≡ kind_found (declarations decls.now) (expression e.now) (held_in names.now)) }
    ensures less { IfOk result (λ r. IsLess r.new (expression e.now)) }
{
    match e {
        Expr::Lit { scale, .. } => unchanged(Kind::Number { scale: *scale }),
        Expr::Yes { .. } => unchanged(Kind::Truth),
        Expr::Var { back } => unchanged(kind_at(names, *back)),
        Expr::Obs { label, .. } => unchanged(kind_observed(decls, *label)),
        Expr::Neg { of } => turn_one(alloc, decls, e, of, names),
        Expr::Not { of } => turn_one(alloc, decls, e, of, names),
        Expr::Widen { of, .. } => turn_one(alloc, decls, e, of, names),
        Expr::Round { of, .. } => turn_one(alloc, decls, e, of, names),
        Expr::Num { left, right, .. } => turn_two(alloc, decls, e, left, right, names),
        Expr::Cmp { left, right, .. } => turn_two(alloc, decls, e, left, right, names),
        Expr::Div { top, below, .. } => turn_two(alloc, decls, e, top, below, names),
        Expr::Logic { op, left, right } => turn_sides(alloc, decls, e, *op, left, right, names),
        Expr::Cond { test, yes, no } => turn_branches(alloc, decls, e, test, yes, no, names),
        Expr::Acc { body, days, first } => turn_steps(alloc, decls, e, body, *days, first, names),
    }
}

// What an operator on one operand turns into.
#[cycle(turning)]
#[tactic(auto, using(crate::proofs::FoldFacts::nothing_folds))]
fn turn_one(
    alloc: Global,
    decls: &Decls,
    e: &Expr,
    part: &Expr,
    names: &Scope<Kind>,
) -> Result<Turned, NoMemory>
    requires whole { over_one (expression e.now) (expression part.now) ≡ expression e.now }
    requires part { CanTurn (declarations decls.now) (expression part.now) (held_in names.now) }
    requires folds { FoldsTo (declarations decls.now) (held_in names.now)
        (one_turned (declarations decls.now) (held_in names.now) e.now part.now) }
    ensures same { IfOk result (λ r.
        IsTurnOfOne (declarations decls.now) (held_in names.now) e.now part.now r.new) }
    ensures kind { IfOk result (λ r.
        r.kind ≡ model.kind_of_one (declarations decls.now) (held_in names.now) e.now part.now) }
    ensures less { IfOk result (λ r. IsLess r.new (expression e.now)) }
{
    let one = turn(alloc, decls, part, names)?;
    if one.new.is_none() && !has_literals(e) {
        unchanged(kind_over_one(e, one.kind))
    } else {
        rebuilt_one(alloc, e, part, one)
    }
}

// What an operator on two operands turns into.
#[cycle(turning)]
#[tactic(auto, using(crate::proofs::FoldFacts::nothing_folds))]
fn turn_two(
    alloc: Global,
    decls: &Decls,
    e: &Expr,
    left: &Expr,
    right: &Expr,
    names: &Scope<Kind>,
) -> Result<Turned, NoMemory>
    requires whole { over_two (expression e.now) (expression left.now) (expression right.now)
        ≡ expression e.now }
    requires parts { CanTurnTwo (declarations decls.now) (held_in names.now)
        e.now left.now right.now }
    ensures same { IfOk result (λ r.
        IsTurnOfTwo (declarations decls.now) (held_in names.now) e.now left.now right.now r.new) }
    ensures kind { IfOk result (λ r. r.kind
        ≡ model.kind_of_two (declarations decls.now) (held_in names.now) e.now left.now right.now) }
    ensures less { IfOk result (λ r. IsLess r.new (expression e.now)) }
{
    let one = turn(alloc, decls, left, names)?;
    let two = turn(alloc, decls, right, names)?;
    if one.new.is_none() && two.new.is_none() && !has_literals(e) {
        unchanged(kind_over_two(e, one.kind, two.kind))
    } else {
        rebuilt_two(alloc, e, left, right, one, two)
    }
}

// What `&` and `|` turn into.
#[cycle(turning)]
#[tactic(auto, using(crate::proofs::FoldFacts::logic_stays))]
fn turn_sides(
    alloc: Global,
    decls: &Decls,
    e: &Expr,
    op: LogicOp,
    left: &Expr,
    right: &Expr,
    names: &Scope<Kind>,
) -> Result<Turned, NoMemory>
    requires whole { expression e.now ≡ Logic op (expression left.now) (expression right.now) }
    requires parts { CanTurn (declarations decls.now)
        (Logic op (expression left.now) (expression right.now)) (held_in names.now) }
    ensures same { IfOk result (λ r. after (expression e.now) r.new
        ≡ turned (declarations decls.now) (held_in names.now)
        (Logic op (expression left.now) (expression right.now))) }
    ensures kind { IfOk result (λ r. r.kind ≡ Truth) }
    ensures less { IfOk result (λ r. IsLess r.new (expression e.now)) }
{
    let one = turn(alloc, decls, left, names)?;
    let two = turn(alloc, decls, right, names)?;
    if one.new.is_none() && two.new.is_none() && !is_literal(left) {
        unchanged(Kind::Truth)
    } else {
        rebuilt_sides(alloc, e, op, left, right, one.new, two.new)
    }
}

// What a choice turns into.
#[cycle(turning)]
#[tactic(auto, using(crate::proofs::FoldFacts::choice_stays))]
fn turn_branches(
    alloc: Global,
    decls: &Decls,
    e: &Expr,
    test: &Expr,
    yes: &Expr,
    no: &Expr,
    names: &Scope<Kind>,
) -> Result<Turned, NoMemory>
    requires whole { expression e.now
        ≡ Cond (expression test.now) (expression yes.now) (expression no.now) }
    requires parts { CanTurn (declarations decls.now)
        (Cond (expression test.now) (expression yes.now) (expression no.now)) (held_in names.now) }
    ensures same { IfOk result (λ r. after (expression e.now) r.new
        ≡ turned (declarations decls.now) (held_in names.now)
        (Cond (expression test.now) (expression yes.now) (expression no.now))) }
    ensures kind { IfOk result (λ r. r.kind ≡ kind_found (declarations decls.now)
        (Cond (expression test.now) (expression yes.now) (expression no.now)) (held_in names.now)) }
    ensures less { IfOk result (λ r. IsLess r.new (expression e.now)) }
{
    let decision = turn(alloc, decls, test, names)?;
    let one = turn(alloc, decls, yes, names)?;
    let two = turn(alloc, decls, no, names)?;
    if decision.new.is_none() && one.new.is_none() && two.new.is_none() && !is_literal(test) {
        unchanged(one.kind.either(two.kind))
    } else {
        rebuilt_branches(alloc, e, test, yes, no, decision.new, one, two)
    }
}

// What an accumulator turns into.
#[cycle(turning)]
fn turn_steps(
    alloc: Global,
    decls: &Decls,
    e: &Expr,
    body: &Expr,
    days: u32,
    first: &Expr,
    names: &Scope<Kind>,
) -> Result<Turned, NoMemory>
    requires whole { expression e.now ≡ Acc (expression body.now) days (expression first.now) }
    requires parts { CanTurn (declarations decls.now)
        (Acc (expression body.now) days (expression first.now)) (held_in names.now) }
    ensures same { IfOk result (λ r. after (expression e.now) r.new
        ≡ turned (declarations decls.now) (held_in names.now)
        (Acc (expression body.now) days (expression first.now))) }
    ensures kind { IfOk result (λ r.
        r.kind ≡ kind_found (declarations decls.now) (expression first.now) (held_in names.now)) }
    ensures less { IfOk result (λ r. IsLess r.new (expression e.now)) }
{
    let one = turn(alloc, decls, first, names)?;
    if days == 0 {
        return start_alone(alloc, first, one);
    }
    let inner = Scope::Bound {
        held: one.kind,
        outer: &*names,
    };
    let two = turn(alloc, decls, body, &inner)?;
    if one.new.is_none() && two.new.is_none() {
        unchanged(one.kind)
    } else {
        rebuilt_steps(alloc, e, body, first, two.new, one)
    }
}
