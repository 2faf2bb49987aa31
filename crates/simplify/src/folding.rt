//! Operators on literals. Most operators have none, and a function pays at entry for all its
//! locals; so whether there are any is asked first.

ghost use Rattle.std.specs.Prelude.{◌≡◌, ◌&&◌};
ghost use Rattle.term_model.specs.Terms.{expression};
ghost use Rattle.term_model.specs.Redexes.{has_literal_operands, is_literal};
ghost use Rattle.rewriting.specs.Measures.{size};
ghost use Rattle.rewriting.specs.Rebuilding.{after, IsLess};
ghost use Rattle.simplify.specs.Folding as model;
ghost use Rattle.simplify.specs.Folding.{both, folded, CanFold};

use expr_eval::operations::{
    Operands, Typed, at_kind, combine, compare, divide, negate, number, round, verdict,
};
use rewriting::literal;
use term_model::{Expr, Kind};

/// Whether an expression is a literal.
pub fn is_literal(e: &Expr) -> bool
    ensures { result ≡ is_literal (expression e.now) }
{
    matches!(e, Expr::Lit { .. } | Expr::Yes { .. })
}

// Whether two expressions are.
fn are_literals(left: &Expr, right: &Expr) -> bool
    ensures { result ≡ (is_literal (expression left.now) && is_literal (expression right.now)) }
{
    is_literal(left) && is_literal(right)
}

/// Whether an expression is an operator on literals; of `&` and `|` the left side alone counts.
pub fn has_literals(e: &Expr) -> bool
    ensures { result ≡ has_literal_operands (expression e.now) }
{
    match e {
        Expr::Neg { of } => is_literal(of),
        Expr::Not { of } => is_literal(of),
        Expr::Widen { of, .. } => is_literal(of),
        Expr::Round { of, .. } => is_literal(of),
        Expr::Num { left, right, .. } => are_literals(left, right),
        Expr::Cmp { left, right, .. } => are_literals(left, right),
        Expr::Logic { left, .. } => is_literal(left),
        Expr::Div { top, below, .. } => are_literals(top, below),
        _ => false,
    }
}

/// The value of a literal, with its kind.
pub fn literal_in(e: &Expr) -> Option<Typed>
    ensures { result ≡ model.literal_in (expression e.now) }
{
    match e {
        Expr::Lit { mant, scale } => Some(number(*scale, *mant)),
        Expr::Yes { value } => Some(verdict(*value)),
        _ => None,
    }
}

// The values of two literals.
fn literals_in(left: &Expr, right: &Expr) -> Option<Operands>
    ensures { result ≡ both (model.literal_in (expression left.now))
        (model.literal_in (expression right.now)) }
{
    let Some(left) = literal_in(left) else {
        return None;
    };
    let Some(right) = literal_in(right) else {
        return None;
    };
    Some(Operands { left, right })
}

// The literal of a value.
fn plain(v: Typed) -> Expr
    ensures literal { expression result ≡ model.plain v }
    ensures one { size (expression result) ≡ 1 }
{
    literal(v.kind, v.value)
}

// What an operator on literals comes to, and nothing where it is none.
#[tactic(auto, using(rewriting::proofs::SizeFacts::some_size))]
fn fold_literals(e: &Expr) -> Option<Expr>
    requires { CanFold (expression e.now) }
    ensures same { after (expression e.now) result ≡ folded (expression e.now) }
    ensures less { IsLess result (expression e.now) }
{
    match e {
        Expr::Neg { of } => match literal_in(of) {
            Some(v) => Some(plain(negate(v))),
            None => None,
        },
        Expr::Not { of } => match literal_in(of) {
            Some(v) => Some(plain(verdict(!v.value.is_true()))),
            None => None,
        },
        Expr::Widen { scale, of } => match literal_in(of) {
            Some(v) => Some(plain(at_kind(Kind::Number { scale: *scale }, v))),
            None => None,
        },
        Expr::Round { mode, scale, of } => match literal_in(of) {
            Some(v) => Some(plain(round(*mode, *scale, v))),
            None => None,
        },
        Expr::Num { op, left, right } => match literals_in(left, right) {
            Some(both) => Some(plain(combine(*op, both))),
            None => None,
        },
        Expr::Cmp { op, left, right } => match literals_in(left, right) {
            Some(both) => Some(plain(compare(*op, both))),
            None => None,
        },
        Expr::Div {
            mode,
            scale,
            top,
            below,
        } => match literals_in(top, below) {
            Some(both) => Some(plain(divide(*mode, *scale, both))),
            None => None,
        },
        _ => None,
    }
}

/// The same, where it may be asked of any expression.
#[tactic(auto, using(crate::proofs::FoldFacts::nothing_folds))]
pub fn fold(e: &Expr) -> Option<Expr>
    requires { CanFold (expression e.now) }
    ensures same { after (expression e.now) result ≡ folded (expression e.now) }
    ensures less { IsLess result (expression e.now) }
{
    if has_literals(e) {
        fold_literals(e)
    } else {
        None
    }
}

/// The node after what its parts came to, folded where it is an operator on literals.
pub fn ruled(e: &Expr, parts: Option<Expr>) -> Option<Expr>
    requires { CanFold (after (expression e.now) parts) }
    ensures same { after (expression e.now) result ≡ folded (after (expression e.now) parts) }
    ensures less { IsLess parts (expression e.now) → IsLess result (expression e.now) }
{
    let Some(parts) = parts else {
        return fold(e);
    };
    match fold(&parts) {
        Some(new) => Some(new),
        None => Some(parts),
    }
}
