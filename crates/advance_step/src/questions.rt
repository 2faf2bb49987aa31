//! What the walk asks of evaluations.

ghost use Rattle.std.specs.Prelude.{◌≡◌, IfOk};
ghost use Rattle.term_model.specs.Terms.{expression};
ghost use Rattle.term_model.specs.Shifts.{shifted};
ghost use Rattle.expr_eval.specs.Evaluable.{MayEvaluate};
ghost use Rattle.flow_eval.specs.Readiness.{IsUpTo};
ghost use Rattle.advance_step.specs.CarryingWalk.{IsEntry, EntersOn, IsFirstDay};

use crate::span::Span;
use expr_eval::{Binding, Held, Scratch, eval, first_true, kind_of};
use fixing_files::Known;
use term_model::{Expr, Missing, day_read};

/// The days until a test is first true, of so many and of those that are gone by.
pub fn first_day(
    known: &Known,
    test: &Expr,
    scratch: &Scratch,
    span: Span,
    days: u32,
) -> Result<Option<u32>, Missing>
    requires place { MayEvaluate known.now.decls (expression test.now) scratch.now.entries }
    ensures answer { IsFirstDay known.now (expression test.now) scratch.now span days result }
    ensures found { IfOk result (λ first. IsUpTo first span.last) }
{
    let tried = span.tried(days);
    first_true(known.decls, test, scratch, known.fixings, span.day, tried)
}

/// The entry of a name that is bound to an expression, which is read `moved` days later than it
/// stands.
pub fn entry_for(
    known: &Known,
    bound: &Expr,
    moved: i32,
    scratch: &mut Scratch,
    span: Span,
) -> Binding
    requires place { MayEvaluate known.now.decls (expression bound.now) scratch.old.entries }
    ensures enters { EntersOn known.now (shifted moved (expression bound.now))
        scratch.old span result }
    ensures suits { IsEntry known.now.decls (expression bound.now) scratch.old.entries result }
    ensures same { scratch.new ≡ scratch.old }
{
    let kind = kind_of(known.decls, bound, scratch);
    let answer = eval(
        known.decls,
        bound,
        scratch,
        known.fixings,
        day_read(span.day, moved),
    );
    Binding {
        kind,
        held: Held::of(answer),
    }
}
