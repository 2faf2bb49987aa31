//! The contracts of the sample.

ghost use Rattle.std.specs.Prelude.{◌≡◌, IfOk};
ghost use Rattle.term_model.specs.Terms.{contract, expression};
ghost use Rattle.sample.specs.Sample.{above, hundredfold, paid_above, paid_else, rate, sample_body, sample_contract};

use decimal::{Mode, NoMemory};
use std::alloc::Global;
use term_model::{CmpOp, Contr, Days, Expr, NumOp};

const EUR: u32 = 0;

const A: u32 = 0;

const B: u32 = 1;

const C: u32 = 2;

// FX on the day on which it stands.
fn rate(alloc: Global) -> Result<Box<Expr>, NoMemory>
    ensures { IfOk result (λ e. expression e.value ≡ rate) }
{
    let rate = Expr::Obs {
        label: 0,
        offset: 0,
    };
    Ok(Box::new(alloc, rate)?)
}

// Whether FX is above 1.2000.
fn above(alloc: Global) -> Result<Expr, NoMemory>
    ensures { IfOk result (λ test. expression test ≡ above) }
{
    let left = rate(alloc)?;
    let limit = Expr::Lit {
        mant: 12_000,
        scale: 4,
    };
    let right = Box::new(alloc, limit)?;
    Ok(Expr::Cmp {
        op: CmpOp::Greater,
        left,
        right,
    })
}

// A hundred times FX, rounded to cents.
fn hundredfold(alloc: Global) -> Result<Expr, NoMemory>
    ensures { IfOk result (λ factor. expression factor ≡ hundredfold) }
{
    let left = rate(alloc)?;
    let hundred = Expr::Lit {
        mant: 10_000,
        scale: 2,
    };
    let right = Box::new(alloc, hundred)?;
    let product = Expr::Num {
        op: NumOp::Times,
        left,
        right,
    };
    let of = Box::new(alloc, product)?;
    Ok(Expr::Round {
        mode: Mode::HalfEven,
        scale: 2,
        of,
    })
}

// A pays B a hundred times FX.
fn paid_above(alloc: Global) -> Result<Box<Contr>, NoMemory>
    ensures { IfOk result (λ c. contract c.value ≡ paid_above) }
{
    let factor = hundredfold(alloc)?;
    let pay = Contr::Pay {
        asset: EUR,
        from: A,
        to: B,
    };
    let body = Box::new(alloc, pay)?;
    Ok(Box::new(alloc, Contr::Scale { factor, body })?)
}

// B pays C 50.00.
fn paid_else(alloc: Global) -> Result<Box<Contr>, NoMemory>
    ensures { IfOk result (λ c. contract c.value ≡ paid_else) }
{
    let factor = Expr::Lit {
        mant: 5_000,
        scale: 2,
    };
    let pay = Contr::Pay {
        asset: EUR,
        from: B,
        to: C,
    };
    let body = Box::new(alloc, pay)?;
    Ok(Box::new(alloc, Contr::Scale { factor, body })?)
}

// What each contract of the sample is after its days.
fn sample_body(alloc: Global) -> Result<Box<Contr>, NoMemory>
    ensures { IfOk result (λ c. contract c.value ≡ sample_body) }
{
    let test = above(alloc)?;
    let hit = paid_above(alloc)?;
    let miss = paid_else(alloc)?;
    let body = Contr::Within {
        test,
        days: Days::Num { days: 30 },
        hit,
        miss,
    };
    Ok(Box::new(alloc, body)?)
}

/// The contract of a number: where FX is above 1.2000 within 30 days, A pays B a hundred times FX
/// on the first such day, and else B pays C 50.00 on the last; all this later by the remainder of
/// the number at a division by 50, in days.
pub fn sample_contract(alloc: Global, number: u32) -> Result<Contr, NoMemory>
    ensures { IfOk result (λ c. contract c ≡ sample_contract number) }
{
    let days = Days::Num { days: number % 50 };
    let body = sample_body(alloc)?;
    Ok(Contr::After { days, body })
}
