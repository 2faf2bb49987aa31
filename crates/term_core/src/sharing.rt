//! Contracts whose parts are shared, of plain ones, and back.

ghost use Rattle.std.specs.Prelude.{◌≡◌, IfOk};
ghost use Rattle.term_model.specs.DayCounts.{Num as Count};
ghost use Rattle.term_model.specs.Terms.{contract, expression};
ghost use Rattle.term_model.specs.Terms.{Zero, Pay, Both, Scale, After, Let, Within};
ghost use Rattle.term_model.specs.WellFormed.{HasOnlyNumbers};
ghost use Rattle.term_core.specs.SharedTerms.{shared, MovesNothing, HasOffsets, HasOffsetsIn};
ghost use Rattle.term_model.specs.Shifts.{shifted};

use crate::shared::SharedContr;
use decimal::NoMemory;
use std::alloc::Global;
use std::rc::Rc;
use term_model::{Contr, Days, Expr, nothing, payment, shift_obs};

/// The contract over parts that nobody else holds yet.
#[cycle(sharing)]
pub fn share(alloc: Global, c: &Contr) -> Result<Rc<SharedContr>, NoMemory>
    requires { HasOnlyNumbers (contract c.now) }
    ensures tree { IfOk result (λ s. shared s.value ≡ contract c.now) }
    ensures moved { IfOk result (λ s. MovesNothing s.value) }
{
    match c {
        Contr::Zero => share_nothing(alloc),
        Contr::Pay { asset, from, to } => share_payment(alloc, *asset, *from, *to),
        Contr::Both { left, right } => share_both(alloc, left, right),
        Contr::Scale { factor, body } => share_scale(alloc, factor, body),
        Contr::After { days, body } => share_after(alloc, days.number(), body),
        Contr::Let { bound, body } => share_let(alloc, bound, body),
        Contr::Within {
            test,
            days,
            hit,
            miss,
        } => share_within(alloc, test, days.number(), hit, miss),
    }
}

// A node that nobody else holds yet.
fn node(alloc: Global, s: SharedContr) -> Result<Rc<SharedContr>, NoMemory>
    ensures { IfOk result (λ r. r.value ≡ s) }
{
    Ok(Rc::new(alloc, s)?)
}

// A contract that pays nothing.
fn share_nothing(alloc: Global) -> Result<Rc<SharedContr>, NoMemory>
    ensures tree { IfOk result (λ s. shared s.value ≡ Zero) }
    ensures moved { IfOk result (λ s. MovesNothing s.value) }
{
    node(alloc, SharedContr::Zero)
}

// A contract that pays one unit of an asset.
fn share_payment(alloc: Global, asset: u32, from: u32, to: u32) -> Result<Rc<SharedContr>, NoMemory>
    ensures tree { IfOk result (λ s. shared s.value ≡ Pay asset from to) }
    ensures moved { IfOk result (λ s. MovesNothing s.value) }
{
    node(alloc, SharedContr::Pay { asset, from, to })
}

// Two contracts.
#[cycle(sharing)]
fn share_both(alloc: Global, left: &Contr, right: &Contr) -> Result<Rc<SharedContr>, NoMemory>
    requires left { HasOnlyNumbers (contract left.now) }
    requires right { HasOnlyNumbers (contract right.now) }
    ensures tree { IfOk result (λ s. shared s.value
        ≡ Both (contract left.now) (contract right.now)) }
    ensures moved { IfOk result (λ s. MovesNothing s.value) }
{
    let left = share(alloc, left)?;
    let right = share(alloc, right)?;
    node(alloc, SharedContr::Both { left, right })
}

// An expression that nobody else holds yet.
fn share_expression(alloc: Global, e: &Expr) -> Result<Rc<Expr>, NoMemory>
    ensures { IfOk result (λ s. expression s.value ≡ expression e.now) }
{
    let e = e.copy(alloc)?;
    Ok(Rc::new(alloc, e)?)
}

// A contract with a factor.
#[cycle(sharing)]
#[tactic(auto, using(term_model::proofs::ShiftedFacts::shifted_zero))]
fn share_scale(alloc: Global, factor: &Expr, body: &Contr) -> Result<Rc<SharedContr>, NoMemory>
    requires { HasOnlyNumbers (contract body.now) }
    ensures tree { IfOk result (λ s. shared s.value
        ≡ Scale (expression factor.now) (contract body.now)) }
    ensures moved { IfOk result (λ s. MovesNothing s.value) }
{
    let factor = share_expression(alloc, factor)?;
    let body = share(alloc, body)?;
    let scale = SharedContr::Scale {
        factor,
        moved: 0,
        body,
    };
    node(alloc, scale)
}

// A contract that waits.
#[cycle(sharing)]
fn share_after(alloc: Global, days: u32, body: &Contr) -> Result<Rc<SharedContr>, NoMemory>
    requires { HasOnlyNumbers (contract body.now) }
    ensures tree { IfOk result (λ s. shared s.value ≡ After (Count days) (contract body.now)) }
    ensures moved { IfOk result (λ s. MovesNothing s.value) }
{
    let body = share(alloc, body)?;
    node(alloc, SharedContr::After { days, body })
}

// A contract with a name.
#[cycle(sharing)]
#[tactic(auto, using(term_model::proofs::ShiftedFacts::shifted_zero))]
fn share_let(alloc: Global, bound: &Expr, body: &Contr) -> Result<Rc<SharedContr>, NoMemory>
    requires { HasOnlyNumbers (contract body.now) }
    ensures tree { IfOk result (λ s. shared s.value
        ≡ Let (expression bound.now) (contract body.now)) }
    ensures moved { IfOk result (λ s. MovesNothing s.value) }
{
    let bound = share_expression(alloc, bound)?;
    let body = share(alloc, body)?;
    let named = SharedContr::Let {
        bound,
        moved: 0,
        body,
    };
    node(alloc, named)
}

// A contract with a test.
#[cycle(sharing)]
fn share_within(
    alloc: Global,
    test: &Expr,
    days: u32,
    hit: &Contr,
    miss: &Contr,
) -> Result<Rc<SharedContr>, NoMemory>
    requires hit { HasOnlyNumbers (contract hit.now) }
    requires miss { HasOnlyNumbers (contract miss.now) }
    ensures tree { IfOk result (λ s. shared s.value
        ≡ Within (expression test.now) (Count days) (contract hit.now) (contract miss.now)) }
    ensures moved { IfOk result (λ s. MovesNothing s.value) }
{
    let test = share_expression(alloc, test)?;
    let hit = share(alloc, hit)?;
    let miss = share(alloc, miss)?;
    let within = SharedContr::Within {
        test,
        days,
        hit,
        miss,
    };
    node(alloc, within)
}

// The expression that a node reads.
#[tactic(auto, using(crate::proofs::SharedFacts::offsets_shift))]
fn read_later(alloc: Global, e: &Expr, moved: i32) -> Result<Expr, NoMemory>
    requires { HasOffsets (shifted moved (expression e.now)) }
    ensures { IfOk result (λ r. expression r ≡ shifted moved (expression e.now)) }
{
    shift_obs(alloc, e, moved)
}

/// The contract that a term with shared parts stands for.
#[cycle(unsharing)]
pub fn unshare(alloc: Global, s: &SharedContr) -> Result<Contr, NoMemory>
    requires { HasOffsetsIn (shared s.now) }
    ensures { IfOk result (λ c. contract c ≡ shared s.now) }
{
    match s {
        SharedContr::Zero => nothing(),
        SharedContr::Pay { asset, from, to } => payment(*asset, *from, *to),
        SharedContr::Both { left, right } => unshare_both(alloc, left, right),
        SharedContr::Scale {
            factor,
            moved,
            body,
        } => unshare_scale(alloc, factor, *moved, body),
        SharedContr::After { days, body } => unshare_after(alloc, *days, body),
        SharedContr::Let { bound, moved, body } => unshare_let(alloc, bound, *moved, body),
        SharedContr::Within {
            test,
            days,
            hit,
            miss,
        } => unshare_within(alloc, test, *days, hit, miss),
    }
}

// A part of its own.
#[cycle(unsharing)]
fn unshare_part(alloc: Global, part: &SharedContr) -> Result<Box<Contr>, NoMemory>
    requires { HasOffsetsIn (shared part.now) }
    ensures { IfOk result (λ c. contract c.value ≡ shared part.now) }
{
    let part = unshare(alloc, part)?;
    Ok(Box::new(alloc, part)?)
}

// Two contracts.
#[cycle(unsharing)]
fn unshare_both(alloc: Global, left: &SharedContr, right: &SharedContr) -> Result<Contr, NoMemory>
    requires left { HasOffsetsIn (shared left.now) }
    requires right { HasOffsetsIn (shared right.now) }
    ensures { IfOk result (λ c. contract c ≡ Both (shared left.now) (shared right.now)) }
{
    let left = unshare_part(alloc, left)?;
    let right = unshare_part(alloc, right)?;
    Ok(Contr::Both { left, right })
}

// A contract with a factor.
#[cycle(unsharing)]
fn unshare_scale(
    alloc: Global,
    factor: &Expr,
    moved: i32,
    body: &SharedContr,
) -> Result<Contr, NoMemory>
    requires factor { HasOffsets (shifted moved (expression factor.now)) }
    requires body { HasOffsetsIn (shared body.now) }
    ensures { IfOk result (λ c. contract c
        ≡ Scale (shifted moved (expression factor.now)) (shared body.now)) }
{
    let factor = read_later(alloc, factor, moved)?;
    let body = unshare_part(alloc, body)?;
    Ok(Contr::Scale { factor, body })
}

// A contract that waits.
#[cycle(unsharing)]
fn unshare_after(alloc: Global, days: u32, body: &SharedContr) -> Result<Contr, NoMemory>
    requires { HasOffsetsIn (shared body.now) }
    ensures { IfOk result (λ c. contract c ≡ After (Count days) (shared body.now)) }
{
    let body = unshare_part(alloc, body)?;
    Ok(Contr::After {
        days: Days::Num { days },
        body,
    })
}

// A contract with a name.
#[cycle(unsharing)]
fn unshare_let(
    alloc: Global,
    bound: &Expr,
    moved: i32,
    body: &SharedContr,
) -> Result<Contr, NoMemory>
    requires bound { HasOffsets (shifted moved (expression bound.now)) }
    requires body { HasOffsetsIn (shared body.now) }
    ensures { IfOk result (λ c. contract c
        ≡ Let (shifted moved (expression bound.now)) (shared body.now)) }
{
    let bound = read_later(alloc, bound, moved)?;
    let body = unshare_part(alloc, body)?;
    Ok(Contr::Let { bound, body })
}

// A contract with a test.
#[cycle(unsharing)]
fn unshare_within(
    alloc: Global,
    test: &Expr,
    days: u32,
    hit: &SharedContr,
    miss: &SharedContr,
) -> Result<Contr, NoMemory>
    requires hit { HasOffsetsIn (shared hit.now) }
    requires miss { HasOffsetsIn (shared miss.now) }
    ensures { IfOk result (λ c. contract c
        ≡ Within (expression test.now) (Count days) (shared hit.now) (shared miss.now)) }
{
    let hit = unshare_part(alloc, hit)?;
    let miss = unshare_part(alloc, miss)?;
    let test = test.copy(alloc)?;
    Ok(Contr::Within {
        test,
        days: Days::Num { days },
        hit,
        miss,
    })
}
