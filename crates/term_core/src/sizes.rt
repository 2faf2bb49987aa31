//! How large a term is.

ghost use Rattle.std.specs.Prelude.{◌≡◌, ◌+◌, ◌≤◌, min, max};
ghost use Rattle.term_model.specs.Limits.{most_counted};
ghost use Rattle.term_model.specs.Terms.{expression, contract};
ghost use Rattle.term_model.specs.Sizes.{nodes, height, nodes_of_contract, height_of_contract};
ghost use Rattle.term_model.specs.Sizes.{capped};

use crate::measures::Counts;
use term_model::{Contr, Expr, MOST_COUNTED};

const LEAF: Counts = Counts {
    height: 1,
    nodes: 1,
};

// The counts of a node over two parts.
fn over(a: Counts, b: Counts) -> Counts
    requires a_height { a.height ≤ most_counted }
    requires a_nodes { a.nodes ≤ most_counted }
    requires b_height { b.height ≤ most_counted }
    requires b_nodes { b.nodes ≤ most_counted }
    ensures height { result.height ≡ min (max a.height b.height + 1) most_counted }
    ensures nodes { result.nodes ≡ min (a.nodes + b.nodes + 1) most_counted }
{
    Counts {
        height: (a.height.max(b.height) + 1).min(MOST_COUNTED),
        nodes: (a.nodes + b.nodes + 1).min(MOST_COUNTED),
    }
}

// The counts of a node over one part.
fn above(a: Counts) -> Counts
    requires height { a.height ≤ most_counted }
    requires nodes { a.nodes ≤ most_counted }
    ensures height { result.height ≡ min (a.height + 1) most_counted }
    ensures nodes { result.nodes ≡ min (a.nodes + 1) most_counted }
{
    Counts {
        height: (a.height + 1).min(MOST_COUNTED),
        nodes: (a.nodes + 1).min(MOST_COUNTED),
    }
}

// The counts of two parts side by side: the greater height, and the nodes of both.
fn beside(a: Counts, b: Counts) -> Counts
    requires a_nodes { a.nodes ≤ most_counted }
    requires b_nodes { b.nodes ≤ most_counted }
    ensures height { result.height ≡ max a.height b.height }
    ensures nodes { result.nodes ≡ min (a.nodes + b.nodes) most_counted }
{
    Counts {
        height: a.height.max(b.height),
        nodes: (a.nodes + b.nodes).min(MOST_COUNTED),
    }
}

/// The counts of an expression.
pub fn counts_of_expr(e: &Expr) -> Counts
    ensures height { result.height ≡ capped (height (expression e.now)) }
    ensures nodes { result.nodes ≡ capped (nodes (expression e.now)) }
{
    match e {
        Expr::Lit { .. } | Expr::Yes { .. } | Expr::Var { .. } | Expr::Obs { .. } => LEAF,
        Expr::Neg { of } => above(counts_of_expr(of)),
        Expr::Not { of } => above(counts_of_expr(of)),
        Expr::Widen { of, .. } => above(counts_of_expr(of)),
        Expr::Round { of, .. } => above(counts_of_expr(of)),
        Expr::Num { left, right, .. } => over(counts_of_expr(left), counts_of_expr(right)),
        Expr::Cmp { left, right, .. } => over(counts_of_expr(left), counts_of_expr(right)),
        Expr::Logic { left, right, .. } => over(counts_of_expr(left), counts_of_expr(right)),
        Expr::Div { top, below, .. } => over(counts_of_expr(top), counts_of_expr(below)),
        Expr::Acc { body, first, .. } => over(counts_of_expr(body), counts_of_expr(first)),
        Expr::Cond { test, yes, no } => over(
            counts_of_expr(test),
            beside(counts_of_expr(yes), counts_of_expr(no)),
        ),
    }
}

/// The counts of a contract.
pub fn counts(c: &Contr) -> Counts
    ensures height { result.height ≡ capped (height_of_contract (contract c.now)) }
    ensures nodes { result.nodes ≡ capped (nodes_of_contract (contract c.now)) }
{
    match c {
        Contr::Zero | Contr::Pay { .. } => LEAF,
        Contr::Both { left, right } => over(counts(left), counts(right)),
        Contr::Scale { factor, body } => over(counts_of_expr(factor), counts(body)),
        Contr::After { body, .. } => above(counts(body)),
        Contr::Let { bound, body } => over(counts_of_expr(bound), counts(body)),
        Contr::Within {
            test,
            hit,
            miss,
            ..
        } => over(counts_of_expr(test), beside(counts(hit), counts(miss))),
    }
}
