//! How many nodes a term has. Unlike the capped counts of a term, these are exact.

ghost use Rattle.std.specs.Prelude.{◌≡◌, ◌<◌, ◌^◌};
ghost use Rattle.term_model.specs.Terms.{expression, contract};
ghost use Rattle.term_model.specs.Sizes.{nodes, nodes_of_contract};

use term_model::{Contr, Expr};

/// The nodes of an expression.
pub fn nodes_in(e: &Expr) -> u32
    requires { nodes (expression e.now) < 2 ^ 32 }
    ensures { result ≡ nodes (expression e.now) }
{
    match e {
        Expr::Lit { .. } | Expr::Yes { .. } | Expr::Var { .. } | Expr::Obs { .. } => 1,
        Expr::Neg { of } => nodes_in(of) + 1,
        Expr::Not { of } => nodes_in(of) + 1,
        Expr::Widen { of, .. } => nodes_in(of) + 1,
        Expr::Round { of, .. } => nodes_in(of) + 1,
        Expr::Num { left, right, .. } => nodes_in(left) + nodes_in(right) + 1,
        Expr::Cmp { left, right, .. } => nodes_in(left) + nodes_in(right) + 1,
        Expr::Logic { left, right, .. } => nodes_in(left) + nodes_in(right) + 1,
        Expr::Div { top, below, .. } => nodes_in(top) + nodes_in(below) + 1,
        Expr::Acc { body, first, .. } => nodes_in(body) + nodes_in(first) + 1,
        Expr::Cond { test, yes, no } => nodes_in(test) + nodes_in(yes) + nodes_in(no) + 1,
    }
}

/// The nodes of a contract, those of its expressions among them.
pub fn nodes_in_contract(c: &Contr) -> u32
    requires { nodes_of_contract (contract c.now) < 2 ^ 32 }
    ensures { result ≡ nodes_of_contract (contract c.now) }
{
    match c {
        Contr::Zero | Contr::Pay { .. } => 1,
        Contr::Both { left, right } => nodes_in_contract(left) + nodes_in_contract(right) + 1,
        Contr::Scale { factor, body } => nodes_in(factor) + nodes_in_contract(body) + 1,
        Contr::After { body, .. } => nodes_in_contract(body) + 1,
        Contr::Let { bound, body } => nodes_in(bound) + nodes_in_contract(body) + 1,
        Contr::Within {
            test,
            hit,
            miss,
            ..
        } => { nodes_in(test) + nodes_in_contract(hit) + nodes_in_contract(miss) + 1 }
    }
}
