//! Lines of plans.
ghost use Rattle.std.specs.Prelude.{◌≡◌, ◌<◌, ◌∷◌, ◌++◌, [], IfOk, codes, length};
ghost use Rattle.indexmap.specs.IndexMap.{keys};
ghost use Rattle.term_model.specs.Declarations.{declarations};
ghost use Rattle.contract_grammar.specs.Judgements.{new_at};
ghost use Rattle.contract_grammar.specs.Spelling.{mark, valued, ◌⨟◌};
ghost use Rattle.contract_grammar.specs.Statements.{Entry, Repeat};
ghost use Rattle.contract_parse.specs.Readers.{Reads, ReadsAhead, ahead_from, behind_word};
ghost use Rattle.schedule_forms.specs.PlanHeads.{word_of};
ghost use Rattle.schedule_forms.specs.PlanSpelling.{definition_part, head_of, plan_line};
ghost use Rattle.schedule_forms.specs.PlanExpecting.{NewPlan, PlanLines, definition_expected, line_expected, the_mark};
ghost use Rattle.schedule_forms.specs.PlanReading.{NamesPlans, PassesPlan};

use crate::definitions::read_definition;
use crate::heads::{PlanHead, head_ahead};
use crate::plans::Plan;
use crate::readers::skip_mark;
use contract_parse::{Lookahead, PartErr, look, read_new_name};
use indexmap::IndexMap;
use std::alloc::Global;
use term_model::{Decls, Name};

// The name of a plan, which no other has.
fn read_name<'a>(
    alloc: Global,
    plans: &IndexMap<Name, Plan>,
    rest: &'a [u8],
) -> Result<(Name, &'a [u8]), PartErr>
    ensures reads { Reads (NamesPlans (keys plans.now) (λ r. keys plans.now ++ r.0 ∷ [])
        (λ ps. NewPlan ∷ ps)) (λ r. valued (new_at (keys plans.now)) r.0)
        (λ r. r.1.now) rest.now result }
    ensures shorter { IfOk result (λ r. length r.1.now < length rest.now) }
{
    read_new_name(alloc, plans, rest)
}

// A plan behind its name, to the end of its line.
#[tactic(auto, using(contract_grammar::proofs::Parts::followed_by))]
fn read_definition_line<'a>(
    head: PlanHead,
    decls: &Decls,
    rest: &'a [u8],
) -> Result<(Plan, &'a [u8]), PartErr>
    ensures reads { Reads (PassesPlan (λ ps. the_mark (codes "=")
        ∷ definition_expected (declarations decls.now) head (the_mark (codes ";") ∷ ps)))
        (λ r. mark (codes "=") ⨟ definition_part (declarations decls.now) r.0 ⨟ mark (codes ";"))
        (λ r. r.1.now) rest.now result }
    ensures head { IfOk result (λ r. head_of r.0 ≡ head) }
    ensures shorter { IfOk result (λ r. length r.1.now < length rest.now) }
{
    let rest = skip_mark(rest, b"=")?;
    let (plan, rest) = read_definition(head, decls, rest)?;
    let rest = skip_mark(rest, b";")?;
    Ok((plan, rest))
}

// A line of plans behind its word.
fn read_plan_line<'a>(
    alloc: Global,
    head: PlanHead,
    decls: &Decls,
    plans: &mut IndexMap<Name, Plan>,
    rest: &'a [u8],
) -> Result<&'a [u8], PartErr>
    ensures reads { Reads (NamesPlans (keys plans.old) (λ r. keys plans.new)
        (λ ps. line_expected (declarations decls.now) head ps))
        (λ r. behind_word (word_of head)
        (Entry (plan_line (declarations decls.now)) plans.old.entries plans.new.entries))
        (λ r. r.now) rest.now result }
    ensures shorter { IfOk result (λ r. length r.now < length rest.now) }
{
    let (name, rest) = read_name(alloc, plans, rest)?;
    let (plan, rest) = read_definition_line(head, decls, rest)?;
    plans.insert(name, plan)?;
    Ok(rest)
}

/// The plans that stand here, up to the last, and the token that comes next.
pub fn read_plans<'a>(
    alloc: Global,
    decls: &Decls,
    ahead: &Lookahead<'a>,
) -> Result<(IndexMap<Name, Plan>, Lookahead<'a>), PartErr>
    ensures reads { ReadsAhead (NamesPlans [] (λ r. keys r.0)
        (λ ps. PlanLines (declarations decls.now) ∷ ps))
        (λ r. Repeat (Entry (plan_line (declarations decls.now))) [] r.0.entries)
        (λ r. ahead_from r.1) (ahead_from ahead.now) result }
{
    let mut plans = IndexMap::new(alloc);
    let mut ahead = *ahead;
    while let Some((head, after)) = head_ahead(&ahead) {
        let rest = read_plan_line(alloc, head, decls, &mut plans, after)?;
        ahead = look(rest);
    }
    Ok((plans, ahead))
}
