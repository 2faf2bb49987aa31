//! Values of expressions on a day.

ghost use Rattle.std.specs.Prelude.{◌≡◌, ◌≤◌, ◌^◌, unsigned_abs};
ghost use Rattle.term_model.specs.Declarations.{declarations};
ghost use Rattle.term_model.specs.Terms.{expression};
ghost use Rattle.term_model.specs.Environments.{IsAdmitted};
ghost use Rattle.expr_eval.specs.Evaluable.{MayEvaluate};
ghost use Rattle.expr_eval.specs.Answers.{IsSuitedAnswer};

use crate::bindings::Bindings;
use crate::evaluation::{evaluate, without_kind};
use crate::scratch::Scratch;
use fixing_files::Fixings;
use term_model::{Decls, Expr, Missing, Value};

/// The value of an expression on a day of the portfolio, over fixings, with the entries of a
/// scratch for its names: the mantissa of a number at the scale of its kind, or a truth value. It
/// lacks a place exactly where one that the expression reads is not fixed, and then answers the
/// first; a lacking entry is the first such place of its name. It takes time by the work of the
/// expression, and no memory.
pub fn eval(
    decls: &Decls,
    e: &Expr,
    scratch: &mut Scratch,
    fixings: &Fixings,
    day: i64,
) -> Result<Value, Missing>
    requires place { MayEvaluate (declarations decls.now) (expression e.now) scratch.old.entries }
    requires admitted { IsAdmitted (declarations decls.now) fixings.now }
    requires day { unsigned_abs day ≤ 10 ^ 12 }
    ensures answer { IsSuitedAnswer (declarations decls.now) (expression e.now) scratch.old.entries
        fixings.now day result }
    ensures same { scratch.new ≡ scratch.old }
{
    let names = Bindings::Lent { scratch: &*scratch };
    without_kind(evaluate(decls, e, &names, fixings, day))
}
