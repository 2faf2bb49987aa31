//! How high code is.

ghost use Rattle.std.specs.Prelude.{◌≡◌, ◌≤◌, ◌+◌, max, min};
ghost use Rattle.term_model.specs.Limits.{most_counted};
ghost use Rattle.term_model.specs.Sizes.{height, capped};
ghost use Rattle.payoff_terms.specs.Code.{value_expression, payoff_code};
ghost use Rattle.payoff_terms.specs.CodeSizes.{height_of_code};
ghost use Rattle.payoff_terms.specs.Dating.{undated};

use payoff_terms::{Code, Vx};
use term_model::MOST_COUNTED;

// One more than a height.
fn above(height: u32) -> u32
    requires { height ≤ most_counted }
    ensures { result ≡ min (height + 1) most_counted }
{
    (height + 1).min(MOST_COUNTED)
}

// The height of a value expression.
fn height_of_value(v: &Vx) -> u32
    ensures { result ≡ capped (height (undated (value_expression v.now))) }
{
    match v {
        Vx::Lit { .. } | Vx::Yes { .. } | Vx::Var { .. } | Vx::Model { .. } => 1,
        Vx::Neg { of } => above(height_of_value(of)),
        Vx::Not { of } => above(height_of_value(of)),
        Vx::Widen { of, .. } => above(height_of_value(of)),
        Vx::Round { of, .. } => above(height_of_value(of)),
        Vx::Num { left, right, .. } => above(height_of_value(left).max(height_of_value(right))),
        Vx::Cmp { left, right, .. } => above(height_of_value(left).max(height_of_value(right))),
        Vx::Logic { left, right, .. } => above(height_of_value(left).max(height_of_value(right))),
        Vx::Div { top, below, .. } => above(height_of_value(top).max(height_of_value(below))),
        Vx::Acc { body, first, .. } => above(height_of_value(body).max(height_of_value(first))),
        Vx::Cond { test, yes, no } => {
            above(height_of_value(test).max(height_of_value(yes).max(height_of_value(no))))
        }
    }
}

/// The height of code.
pub fn height_of(k: &Code) -> u32
    ensures { result ≡ capped (height_of_code (payoff_code k.now)) }
{
    match k {
        Code::None | Code::Pay { .. } => 1,
        Code::Add { left, right } => above(height_of(left).max(height_of(right))),
        Code::Scale { factor, body } => above(height_of_value(factor).max(height_of(body))),
        Code::Let { bound, body } => above(height_of_value(bound).max(height_of(body))),
        Code::LoopIf {
            test,
            hit,
            miss,
            ..
        } => above(height_of_value(test).max(height_of(hit).max(height_of(miss)))),
        Code::Cut { body, .. } => above(height_of(body)),
    }
}
