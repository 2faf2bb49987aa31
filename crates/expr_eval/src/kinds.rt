//! Kinds of expressions.

ghost use Rattle.std.specs.Prelude.{◌≡◌, Some};
ghost use Rattle.term_model.specs.Declarations.{declarations};
ghost use Rattle.term_model.specs.Terms.{expression};
ghost use Rattle.term_model.specs.Kinds as model;
ghost use Rattle.expr_eval.specs.Rooms.{kinds_of};
ghost use Rattle.expr_eval.specs.Runs.{kind_observed};
ghost use Rattle.expr_eval.specs.Evaluations.{KindFitsIn, kind_in};
ghost use Rattle.expr_eval.specs.Evaluable.{MayEvaluate};

use crate::bindings::{Bindings, kind_at};
use crate::operations::scale_of_both;
use crate::scratch::Scratch;
use term_model::{Decls, Expr, Kind, Label};

/// The kind of what is observed; a label that is not declared, which no accepted term has, is a
/// truth value.
pub fn kind_observed(decls: &Decls, label: u32) -> Kind
    ensures { result ≡ kind_observed (declarations decls.now) label }
{
    match decls.label(label) {
        Some(Label::Number { scale, .. }) => Kind::Number { scale },
        Some(Label::Flag) | None => Kind::Truth,
    }
}

/// The kind of an expression whose sorts are in order. It looks only at the parts on which the kind
/// depends.
pub fn kind_in(decls: &Decls, e: &Expr, names: &Bindings) -> Kind
    requires { KindFitsIn decls.now (expression e.now) names.now }
    ensures { result ≡ kind_in decls.now (expression e.now) names.now }
{
    match e {
        Expr::Lit { scale, .. } => Kind::Number { scale: *scale },
        Expr::Var { back } => kind_at(names, *back),
        Expr::Obs { label, .. } => kind_observed(decls, *label),
        Expr::Yes { .. } | Expr::Cmp { .. } | Expr::Not { .. } | Expr::Logic { .. } => Kind::Truth,
        Expr::Neg { of } => Kind::Number {
            scale: kind_in(decls, of, names).scale(),
        },
        Expr::Num { op, left, right } => {
            let left = kind_in(decls, left, names);
            let right = kind_in(decls, right, names);
            Kind::Number {
                scale: scale_of_both(*op, left, right),
            }
        }
        Expr::Cond { yes, no, .. } => {
            let yes = kind_in(decls, yes, names);
            let no = kind_in(decls, no, names);
            yes.either(no)
        }
        Expr::Widen { scale, .. } => Kind::Number { scale: *scale },
        Expr::Round { scale, .. } => Kind::Number { scale: *scale },
        Expr::Div { scale, .. } => Kind::Number { scale: *scale },
        Expr::Acc { first, .. } => kind_in(decls, first, names),
    }
}

/// The kind of an expression, with the kinds of the entries of a scratch for its names. It takes no
/// memory.
pub fn kind_of(decls: &Decls, e: &Expr, scratch: &Scratch) -> Kind
    requires place { MayEvaluate (declarations decls.now) (expression e.now) scratch.now.entries }
    ensures kind { model.kind_of (declarations decls.now) (expression e.now)
        (kinds_of scratch.now.entries) ≡ Some result }
{
    let names = Bindings::Lent { scratch: &*scratch };
    kind_in(decls, e, &names)
}
