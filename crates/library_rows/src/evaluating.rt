//! Values of expressions in accepted contracts over fixings.

ghost use Rattle.std.specs.Prelude.{◌≡◌, ◌≤◌, ◌^◌, unsigned_abs};
ghost use Rattle.term_model.specs.Declarations.{declarations};
ghost use Rattle.term_model.specs.Terms.{contract};
ghost use Rattle.term_model.specs.Environments.{IsAdmitted};
ghost use Rattle.term_model.specs.Sizes.{height_of_contract};
ghost use Rattle.expr_eval.specs.Evaluable.{MayEvaluateIn};
ghost use Rattle.specialise.specs.Specialised.{StandsAlone};

use expr_eval::{Held, Scratch, eval, kind_of, parts_may_be_evaluated};
use fixing_files::Fixings;
use row_language::{Answer, say};
use std::alloc::Global;
use term_model::{Contr, Decls, Missing, Value};

// What the factor of the first `scale` behind the names that are bound round it answers on a day
// on which each of them was evaluated and entered; nothing, where none stands there.
fn factor_of(
    decls: &Decls,
    c: &Contr,
    scratch: &mut Scratch,
    fixings: &Fixings,
    day: i64,
) -> Option<Result<Value, Missing>>
    requires place { MayEvaluateIn (declarations decls.now) (contract c.now) scratch.old.entries }
    requires room { height_of_contract (contract c.now) ≤ scratch.old.spare }
    requires admitted { IsAdmitted (declarations decls.now) fixings.now }
    requires day { unsigned_abs day ≤ 10 ^ 12 }
    ensures { scratch.new ≡ scratch.old }
{
    parts_may_be_evaluated();
    match c {
        Contr::Scale { factor, .. } => Some(eval(decls, factor, scratch, fixings, day)),
        Contr::Let { bound, body } => {
            let kind = kind_of(decls, bound, scratch);
            let held = Held::of(eval(decls, bound, scratch, fixings, day));
            scratch.enter(kind, held);
            let answer = factor_of(decls, body, scratch, fixings, day);
            scratch.leave();
            answer
        }
        _ => None,
    }
}

/// Appends the value of the factor of the first `scale` of a contract behind its names, or the first
/// place that is not fixed; or that it has none there.
pub fn evaluated(
    alloc: Global,
    decls: &Decls,
    c: &Contr,
    fixings: &Fixings,
    day: i64,
    out: &mut String,
) -> Answer
    requires alone { StandsAlone (declarations decls.now) (contract c.now) }
    requires low { height_of_contract (contract c.now) ≤ 1_000 }
    requires admitted { IsAdmitted (declarations decls.now) fixings.now }
    requires day { unsigned_abs day ≤ 10 ^ 12 }
{
    parts_may_be_evaluated();
    let mut scratch = Scratch::for_contract(alloc, c)?;
    say(&factor_of(decls, c, &mut scratch, fixings, day), out)
}
