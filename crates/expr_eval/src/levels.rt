//! Expressions whose numbers have one scale on all the way, so that none is widened.

ghost use Rattle.std.specs.Prelude.{◌≡◌};
ghost use Rattle.term_model.specs.Declarations.{declarations};
ghost use Rattle.term_model.specs.Terms.{expression};
ghost use Rattle.expr_eval.specs.Bindings.{bindings};
ghost use Rattle.expr_eval.specs.Evaluations.{kinds_in};
ghost use Rattle.expr_eval.specs.Levels.{has_scale, is_amount, is_level, is_numeric, keeps_scale, stays_level};

use crate::bindings::{Bindings, kind_at};
use crate::kinds::kind_observed;
use crate::operations::Typed;
use crate::scratch::{Binding, Held};
use term_model::{Decls, Expr, Kind, NumOp, Value};

// Whether it is the kind of the numbers of a scale.
fn has_scale(kind: Kind, scale: u8) -> bool
    ensures { result ≡ has_scale kind scale }
{
    match kind {
        Kind::Truth => false,
        Kind::Number { scale: own } => own == scale,
    }
}

// Whether the value of an operator has the scale of its operands, where both have one.
fn keeps_scale(op: NumOp) -> bool
    ensures { result ≡ keeps_scale op }
{
    !matches!(op, NumOp::Times)
}

// Whether the values of an expression, of its operands and of its branches are numbers of a scale.
fn is_level(decls: &Decls, e: &Expr, names: &Bindings, scale: u8) -> bool
    ensures { result ≡ is_level (declarations decls.now) (expression e.now)
        (kinds_in names.now) scale }
{
    match e {
        Expr::Lit { scale: own, .. } => *own == scale,
        Expr::Var { back } => has_scale(kind_at(names, *back), scale),
        Expr::Obs { label, .. } => has_scale(kind_observed(decls, *label), scale),
        Expr::Num { op, left, right } => {
            keeps_scale(*op)
                && is_level(decls, left, names, scale)
                && is_level(decls, right, names, scale)
        }
        Expr::Cond { yes, no, .. } => {
            is_level(decls, yes, names, scale) && is_level(decls, no, names, scale)
        }
        Expr::Widen { scale: own, .. } => *own == scale,
        Expr::Round { scale: own, .. } => *own == scale,
        Expr::Div { scale: own, .. } => *own == scale,
        _ => false,
    }
}

// Whether each value of an expression is a number by its form, where that of the innermost name is
// one.
fn is_numeric(e: &Expr) -> bool
    ensures { result ≡ is_numeric (expression e.now) }
{
    match e {
        Expr::Var { back } => *back == 0,
        Expr::Cond { yes, no, .. } => is_numeric(yes) && is_numeric(no),
        Expr::Lit { .. } | Expr::Num { .. } | Expr::Round { .. } | Expr::Div { .. } => true,
        _ => false,
    }
}

// Whether a value is a number.
fn is_amount(value: Value) -> bool
    ensures { result ≡ is_amount value }
{
    matches!(value, Value::Num { .. })
}

/// Whether an accumulator with this body keeps the scale of the number that it has.
pub fn stays_level(decls: &Decls, body: &Expr, names: &Bindings, value: Typed) -> bool
    ensures { result ≡ stays_level (declarations decls.now) (expression body.now)
        (bindings names.now) value }
{
    let inner = Bindings::Inner {
        binding: Binding {
            kind: value.kind,
            held: Held::Known { value: value.value },
        },
        outer: &*names,
    };
    let scale = value.kind.scale();
    is_amount(value.value)
        && has_scale(value.kind, scale)
        && is_numeric(body)
        && is_level(decls, body, &inner, scale)
}
