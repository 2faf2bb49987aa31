//! Kinds of value expressions.

ghost use Rattle.std.specs.Prelude.{◌≡◌};
ghost use Rattle.expr_eval.specs.Evaluations.{KindFitsIn, kind_in};
ghost use Rattle.payoff_eval.specs.CodeEvaluations.{dated};

use crate::asking::Asking;
use expr_eval::operations::scale_of_both;
use expr_eval::{Bindings, kind_at, kind_observed};
use payoff_terms::Vx;
use term_model::Kind;

/// The kind of an expression whose sorts are in order. It looks only at the parts on which the kind
/// depends.
pub fn kind_in(asking: &Asking, e: &Vx, names: &Bindings) -> Kind
    requires { KindFitsIn asking.now.decls.now (dated asking.now e.now) names.now }
    ensures { result ≡ kind_in asking.now.decls.now (dated asking.now e.now) names.now }
{
    match e {
        Vx::Lit { scale, .. } => Kind::Number { scale: *scale },
        Vx::Var { back } => kind_at(names, *back),
        Vx::Model { label, .. } => kind_observed(asking.decls, *label),
        Vx::Yes { .. } | Vx::Cmp { .. } | Vx::Not { .. } | Vx::Logic { .. } => Kind::Truth,
        Vx::Neg { of } => Kind::Number {
            scale: kind_in(asking, of, names).scale(),
        },
        Vx::Num { op, left, right } => {
            let left = kind_in(asking, left, names);
            let right = kind_in(asking, right, names);
            Kind::Number {
                scale: scale_of_both(*op, left, right),
            }
        }
        Vx::Cond { yes, no, .. } => {
            let yes = kind_in(asking, yes, names);
            let no = kind_in(asking, no, names);
            yes.either(no)
        }
        Vx::Widen { scale, .. } => Kind::Number { scale: *scale },
        Vx::Round { scale, .. } => Kind::Number { scale: *scale },
        Vx::Div { scale, .. } => Kind::Number { scale: *scale },
        Vx::Acc { first, .. } => kind_in(asking, first, names),
    }
}
