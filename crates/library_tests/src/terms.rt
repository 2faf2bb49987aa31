//! Terms that are made by hand: an expression of which each observable is read a day sooner, and
//! room for names.

ghost use Rattle.std.specs.Prelude.{◌≤◌};

use decimal::Mode;
use expr_eval::{Binding, Held, Scratch};
use std::process::Abort;
use std::test::Fail;
use term_model::{Expr, Kind, Value, shift_obs};

// Whether an expression is what is read of the first label so many days on.
fn is_read(e: &Expr, on: i32) -> bool {
    match e {
        Expr::Obs { label, offset } => *label == 0 && *offset == on,
        _ => false,
    }
}

// Whether it is that, rounded to two decimals.
fn is_rounded_read(e: &Expr, on: i32) -> bool {
    match e {
        Expr::Round { mode, scale, of } => {
            *mode == Mode::HalfEven && *scale == 2 && is_read(of, on)
        }
        _ => false,
    }
}

#[test]
fn observables_are_shifted(rt: HostRuntime) -> Result<(), Fail> {
    let alloc = rt.alloc();
    let read = Expr::Obs {
        label: 0,
        offset: 30,
    };
    let rounded = Expr::Round {
        mode: Mode::HalfEven,
        scale: 2,
        of: Box::new(alloc, read)?,
    };
    assert!(rt; is_rounded_read(&shift_obs(alloc, &rounded, -1)?, 29));
    Ok(())
}

// A name is entered where there are none, and stands there.
fn enter_one(rt: &impl Abort, scratch: &mut Scratch)
    requires { 1 ≤ scratch.old.spare }
{
    assert_eq!(rt; scratch.at(0), None);
    let held = Held::Known {
        value: Value::Truth { value: true },
    };
    scratch.enter(Kind::Truth, held);
    assert_eq!(rt;
        scratch.at(0),
        Some(Binding {
            kind: Kind::Truth,
            held,
        })
    );
}

// The room for an expression, or for a height, is that for its names; there are none at first.
#[test]
fn scratches_have_room(rt: HostRuntime) -> Result<(), Fail> {
    let e = Expr::Yes { value: true };
    enter_one(&rt, &mut Scratch::for_expr(rt.alloc(), &e)?);
    enter_one(&rt, &mut Scratch::for_height(rt.alloc(), 200)?);
    Ok(())
}
