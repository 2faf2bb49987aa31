//! How high an expression is.

ghost use Rattle.std.specs.Prelude.{◌≡◌, ◌≤◌};
ghost use Rattle.term_model.specs.Terms.{expression};
ghost use Rattle.term_model.specs.Sizes.{height};

use term_model::Expr;

/// The height of an expression.
pub fn height_of(e: &Expr) -> u32
    requires { height (expression e.now) ≤ 1_000 }
    ensures { result ≡ height (expression e.now) }
{
    match e {
        Expr::Lit { .. } | Expr::Yes { .. } | Expr::Var { .. } | Expr::Obs { .. } => 1,
        Expr::Neg { of } => height_of(of) + 1,
        Expr::Not { of } => height_of(of) + 1,
        Expr::Widen { of, .. } => height_of(of) + 1,
        Expr::Round { of, .. } => height_of(of) + 1,
        Expr::Num { left, right, .. } => height_of(left).max(height_of(right)) + 1,
        Expr::Cmp { left, right, .. } => height_of(left).max(height_of(right)) + 1,
        Expr::Logic { left, right, .. } => height_of(left).max(height_of(right)) + 1,
        Expr::Div { top, below, .. } => height_of(top).max(height_of(below)) + 1,
        Expr::Acc { body, first, .. } => height_of(body).max(height_of(first)) + 1,
        Expr::Cond { test, yes, no } => {
            height_of(test).max(height_of(yes).max(height_of(no))) + 1
        }
    }
}
