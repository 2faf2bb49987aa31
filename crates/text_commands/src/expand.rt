//! The command `expand`: the contract that each plan is written for is made, tried, printed and
//! dropped before the next.

ghost use Rattle.std.specs.Prelude.{map};
ghost use Rattle.term_model.specs.Declarations.{declarations};
ghost use Rattle.contract_grammar.specs.Writable.{IsWritableTerm};
ghost use Rattle.schedule_forms.specs.PlanBooks.{plan_book};
ghost use Rattle.schedule_forms.specs.DeclaredPlans.{IsPlanOfTexts};
ghost use Rattle.schedule_forms.specs.Expansions.{expansion};
ghost use Rattle.command_courses.specs.Inputs.{bytes_of, file_at};
ghost use Rattle.command_courses.specs.Stopping.{AnswersBy, AnswersStage, GoesDone};
ghost use Rattle.used_contracts.specs.AllAccepted.{IsRefusedOf};
ghost use Rattle.text_commands.specs.ExpandCourse.{expand_course};
ghost use Rattle.text_commands.specs.ExpandParts.{AnswersExpansion, AnswersLine, ArePlansOfTexts};
ghost use Rattle.text_commands.specs.ExpandParts.{ArePrintedExpansions, AreWritableExpansions};
ghost use Rattle.text_commands.specs.ExpandParts.{expanded_entry};
ghost use Rattle.text_commands.specs.ExpandStages.{plans_of};

use command_courses::{Inputs, Stop};
use contract_print::{print_beginning, print_contract};
use indexmap::IndexMap;
use schedule_forms::{Plan, PlanFile, expand, parse_plans};
use std::alloc::Global;
use term_model::{Contr, Decls, Name};
use used_contracts::accept_named;

// The schedule file of a command's first file.
fn plans_of(alloc: Global, inputs: Inputs<'_>) -> Result<PlanFile, Stop>
    ensures { AnswersStage (plans_of (file_at (bytes_of inputs.entry.files.now) 0)) plan_book
        result }
{
    let file = parse_plans(alloc, inputs.file(0))?;
    Ok(file)
}

// The contract that a plan is written for, where it is accepted.
fn accepted_expansion(alloc: Global, decls: &Decls, name: &Name, plan: &Plan) -> Result<Contr, Stop>
    requires { IsPlanOfTexts (declarations decls.now) plan.now }
    ensures { AnswersExpansion (declarations decls.now) name.now plan.now result }
{
    let contr = expand(alloc, plan)?;
    accept_named(alloc, decls, name.text(), &contr)?;
    Ok(contr)
}

// Puts the line of the contract that a plan is written for behind a text, where the contract is
// accepted.
fn append_expansion(
    alloc: Global,
    out: &mut Vec<u8>,
    decls: &Decls,
    name: &Name,
    plan: &Plan,
) -> Result<(), Stop>
    requires plan { IsPlanOfTexts (declarations decls.now) plan.now }
    requires writable { IsWritableTerm (expansion plan.now) }
    ensures { AnswersLine (declarations decls.now) name.now plan.now
        out.old.items out.new.items result }
{
    let contr = accepted_expansion(alloc, decls, name, plan)?;
    print_contract(alloc, out, decls, name.text(), &contr)?;
    Ok(())
}

// The text of the portfolio of the contracts that plans are written for, each under the name of its
// plan, where all are accepted.
fn expansions_text(
    alloc: Global,
    decls: &Decls,
    plans: &IndexMap<Name, Plan>,
) -> Result<Vec<u8>, Stop>
    requires plans { ArePlansOfTexts (declarations decls.now) plans.now.entries }
    requires writable { AreWritableExpansions plans.now.entries }
    ensures { AnswersBy
        (λ text. ArePrintedExpansions (declarations decls.now) plans.now.entries text.items)
        (IsRefusedOf (declarations decls.now) (map expanded_entry plans.now.entries)) result }
{
    let mut text = Vec::new(alloc);
    print_beginning(alloc, &mut text, decls)?;
    for (name, plan) in plans {
        append_expansion(alloc, &mut text, decls, name, plan)?;
    }
    Ok(text)
}

/// What `expand` writes of a schedule file: the text of the portfolio of the contracts that its
/// plans are written for; or the fault of the first of them that is not accepted.
pub fn expand_text(alloc: Global, inputs: Inputs<'_>) -> Result<Vec<u8>, Stop>
    ensures { GoesDone (expand_course (bytes_of inputs.entry.files.now)) result }
{
    let file = plans_of(alloc, inputs)?;
    expansions_text(alloc, &file.decls, &file.plans)
}
