//! Whether a contract is closed: each index that it holds is declared, each name has its binder,
//! and each offset of an observable is within the limit.

ghost use Rattle.std.specs.Prelude.{◌≡◌, ◌≤◌, ◌^◌, ◌↔◌, IfSome, IsTrue, nat_lt};
ghost use Rattle.term_model.specs.Declarations.{declarations};
ghost use Rattle.term_model.specs.DayCounts.{day_count};
ghost use Rattle.term_model.specs.Terms.{expression, contract};
ghost use Rattle.term_model.specs.WellFormed.{IsClosed, HasOnlyNumbers};
ghost use Rattle.term_core.specs.Binders.{are_below, around, is_declared, is_observable, is_offset, is_transfer, more_of, wanted, wanted_by_contract};

use term_model::{Contr, Days, Decls, Expr, GREATEST_OFFSET};

// The greater of two counts of binders.
fn more_of(one: Option<u64>, other: Option<u64>) -> Option<u64>
    requires one { IfSome one (λ n. n ≤ 2 ^ 32) }
    requires other { IfSome other (λ n. n ≤ 2 ^ 32) }
    ensures value { result ≡ more_of one other }
    ensures few { IfSome result (λ n. n ≤ 2 ^ 32) }
{
    match (one, other) {
        (Some(m), Some(n)) => Some(m.max(n)),
        _ => None,
    }
}

// The binders that are wanted around a binder.
fn around(inner: Option<u64>) -> Option<u64>
    requires { IfSome inner (λ n. n ≤ 2 ^ 32) }
    ensures value { result ≡ around inner }
    ensures few { IfSome result (λ n. n ≤ 2 ^ 32) }
{
    match inner {
        Some(n) => Some(n.saturating_sub(1)),
        None => None,
    }
}

fn is_offset(days: i32) -> bool
    ensures { result ≡ is_offset days }
{
    -GREATEST_OFFSET <= days && days <= GREATEST_OFFSET
}

fn is_among(index: u32, count: usize) -> bool
    ensures { result ≡ nat_lt index count }
{
    (index as usize) < count
}

fn is_observable(decls: &Decls, label: u32, offset: i32) -> bool
    ensures { result ≡ is_observable (declarations decls.now) label offset }
{
    is_among(label, decls.labels.len()) && is_offset(offset)
}

// How many binders an expression wants around it, or none where it holds what is not declared.
fn wanted(decls: &Decls, e: &Expr) -> Option<u64>
    ensures value { result ≡ wanted (declarations decls.now) (expression e.now) }
    ensures few { IfSome result (λ n. n ≤ 2 ^ 32) }
{
    match e {
        Expr::Lit { .. } | Expr::Yes { .. } => Some(0),
        Expr::Var { back } => Some(*back as u64 + 1),
        Expr::Obs { label, offset } => {
            if is_observable(decls, *label, *offset) {
                Some(0)
            } else {
                None
            }
        }
        Expr::Neg { of } => wanted(decls, of),
        Expr::Not { of } => wanted(decls, of),
        Expr::Widen { of, .. } => wanted(decls, of),
        Expr::Round { of, .. } => wanted(decls, of),
        Expr::Num { left, right, .. } => more_of(wanted(decls, left), wanted(decls, right)),
        Expr::Cmp { left, right, .. } => more_of(wanted(decls, left), wanted(decls, right)),
        Expr::Logic { left, right, .. } => more_of(wanted(decls, left), wanted(decls, right)),
        Expr::Div { top, below, .. } => more_of(wanted(decls, top), wanted(decls, below)),
        Expr::Cond { test, yes, no } => {
            let branches = more_of(wanted(decls, yes), wanted(decls, no));
            more_of(wanted(decls, test), branches)
        }
        Expr::Acc { body, first, .. } => {
            more_of(around(wanted(decls, body)), wanted(decls, first))
        }
    }
}

fn is_transfer(decls: &Decls, asset: u32, from: u32, to: u32) -> bool
    ensures { result ≡ is_transfer (declarations decls.now) asset from to }
{
    let parties = decls.parties.len();
    is_among(asset, decls.assets.len()) && is_among(from, parties) && is_among(to, parties)
}

// Whether each index is below a length.
fn are_below(len: usize, names: &[u32]) -> bool
    ensures { result ≡ are_below len names.now }
{
    names.iter().all(|name| is_among(*name, len))
}

fn is_declared(decls: &Decls, days: &Days) -> bool
    ensures { result ≡ is_declared (declarations decls.now) (day_count days.now) }
{
    match days {
        Days::Num { .. } => true,
        Days::Named { template } => is_among(*template, decls.templates.len()),
        Days::Sum { sum } => are_below(decls.templates.len(), sum.names.as_slice()),
    }
}

// How many binders a contract wants around it, or none where it holds what is not declared.
fn wanted_by_contract(decls: &Decls, c: &Contr) -> Option<u64>
    ensures value { result ≡ wanted_by_contract (declarations decls.now) (contract c.now) }
    ensures few { IfSome result (λ n. n ≤ 2 ^ 32) }
{
    match c {
        Contr::Zero => Some(0),
        Contr::Pay { asset, from, to } => {
            if is_transfer(decls, *asset, *from, *to) {
                Some(0)
            } else {
                None
            }
        }
        Contr::Both { left, right } => more_of(
            wanted_by_contract(decls, left),
            wanted_by_contract(decls, right),
        ),
        Contr::Scale { factor, body } => {
            more_of(wanted(decls, factor), wanted_by_contract(decls, body))
        }
        Contr::After { days, body } => {
            if is_declared(decls, days) {
                wanted_by_contract(decls, body)
            } else {
                None
            }
        }
        Contr::Let { bound, body } => more_of(
            wanted(decls, bound),
            around(wanted_by_contract(decls, body)),
        ),
        Contr::Within {
            test,
            days,
            hit,
            miss,
        } => {
            if is_declared(decls, days) {
                let branches = more_of(
                    wanted_by_contract(decls, hit),
                    wanted_by_contract(decls, miss),
                );
                more_of(wanted(decls, test), branches)
            } else {
                None
            }
        }
    }
}

/// Whether a contract is closed under the declarations, which the calls that take a contract ask of
/// it. A portfolio that was read holds no other; this is for contracts that are made by a program.
pub fn is_closed(decls: &Decls, c: &Contr) -> bool
    ensures { IsTrue result ↔ IsClosed (declarations decls.now) (contract c.now) }
{
    match wanted_by_contract(decls, c) {
        Some(binders) => binders == 0,
        None => false,
    }
}

/// Whether each day count of a contract is a number, and no name of a template.
pub fn has_only_numbers(c: &Contr) -> bool
    ensures { IsTrue result ↔ HasOnlyNumbers (contract c.now) }
{
    match c {
        Contr::Zero | Contr::Pay { .. } => true,
        Contr::Both { left, right } => has_only_numbers(left) && has_only_numbers(right),
        Contr::Scale { body, .. } | Contr::Let { body, .. } => has_only_numbers(body),
        Contr::After { days, body } => match days {
            Days::Num { .. } => has_only_numbers(body),
            Days::Named { .. } => false,
            Days::Sum { .. } => false,
        },
        Contr::Within {
            days,
            hit,
            miss,
            ..
        } => match days {
            Days::Num { .. } => has_only_numbers(hit) && has_only_numbers(miss),
            Days::Named { .. } => false,
            Days::Sum { .. } => false,
        },
    }
}
