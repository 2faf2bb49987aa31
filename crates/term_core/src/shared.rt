//! Contracts whose parts are shared.

use std::rc::Rc;
use term_model::Expr;

/// A contract whose parts may be shared, for residuals of which most stays from day to day. The
/// factor of a `Scale` and the expression of a `Let` are read `moved` days later than they stand.
#[derive(Drop)]
pub enum SharedContr {
    Zero,
    Pay {
        asset: u32,
        from: u32,
        to: u32,
    },
    Both {
        left: Rc<SharedContr>,
        right: Rc<SharedContr>,
    },
    Scale {
        factor: Rc<Expr>,
        moved: i32,
        body: Rc<SharedContr>,
    },
    After {
        days: u32,
        body: Rc<SharedContr>,
    },
    Let {
        bound: Rc<Expr>,
        moved: i32,
        body: Rc<SharedContr>,
    },
    Within {
        test: Rc<Expr>,
        days: u32,
        hit: Rc<SharedContr>,
        miss: Rc<SharedContr>,
    },
}
