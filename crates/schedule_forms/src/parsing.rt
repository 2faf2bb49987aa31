//! Schedule files from their texts.
ghost use Rattle.std.specs.Prelude.{◌≡◌, ◌≤◌, ◌∷◌, [], IfOk, codes, length};
ghost use Rattle.std.specs.List.{All};
ghost use Rattle.term_model.specs.Limits.{longest_file};
ghost use Rattle.term_model.specs.Declarations.{declarations};
ghost use Rattle.contract_grammar.specs.Tokens.{tokens};
ghost use Rattle.contract_grammar.specs.Names.{declared_by, nothing_declared};
ghost use Rattle.contract_grammar.specs.Judgements.{is_version};
ghost use Rattle.contract_grammar.specs.Spelling.{mark, one, word, ◌⨟◌};
ghost use Rattle.contract_grammar.specs.Statements.{decls};
ghost use Rattle.contract_parse.specs.Expecting.{TheMark, TheVersion, TheWord};
ghost use Rattle.contract_parse.specs.Readers.{Extends, PassesAnywhere, Reads, ReadsAhead, ahead_from, ahead_in};
ghost use Rattle.schedule_forms.specs.PlanSpelling.{first_line};
ghost use Rattle.schedule_forms.specs.DeclaredPlans.{IsPlanOfTexts};
ghost use Rattle.schedule_forms.specs.PlanTexts.{PlanAnswers, ReadsPlans, heading_expected};

use crate::lines::read_plans;
use crate::plan_file::PlanFile;
use contract_parse::{
    Lookahead, ParseErr, PartErr, fault_at, read_decls, read_end, skip_mark, skip_version,
    skip_word, start_text,
};
use std::alloc::Global;
use term_model::Decls;

// The first line.
#[tactic(auto, using(contract_grammar::proofs::Parts::followed_by))]
fn skip_first_line(rest: &[u8]) -> Result<&[u8], PartErr>
    ensures reads { Reads (PassesAnywhere
        (λ ps. TheWord (codes "schedules") ∷ TheVersion ∷ TheMark (codes ";") ∷ ps))
        (λ r. word (codes "schedules") ⨟ one is_version ⨟ mark (codes ";"))
        (λ r. r.now) rest.now result }
{
    let rest = skip_word(rest, b"schedules")?;
    let rest = skip_version(rest)?;
    let rest = skip_mark(rest, b";")?;
    Ok(rest)
}

// The first line and the declarations, and the token that comes next.
fn read_heading<'a>(alloc: Global, bytes: &'a [u8]) -> Result<(Decls, Lookahead<'a>), PartErr>
    requires { length bytes.now ≤ longest_file }
    ensures version { IfOk result (λ r. r.0.version ≡ 1) }
    ensures reads { ReadsAhead (Extends nothing_declared
        (λ r. declared_by (declarations r.0) []) heading_expected)
        (λ r. first_line ⨟ decls (declarations r.0))
        (λ r. ahead_from r.1) (ahead_in bytes.now) result }
{
    let rest = skip_first_line(bytes)?;
    read_decls(alloc, 1, rest)
}

// The schedule file, or the first token that is refused.
fn read_plan_file(alloc: Global, bytes: &[u8]) -> Result<PlanFile, PartErr>
    requires { length bytes.now ≤ longest_file }
    ensures reads { ReadsPlans (tokens bytes.now) result }
    ensures version { IfOk result (λ file. file.decls.version ≡ 1) }
{
    let (decls, ahead) = read_heading(alloc, bytes)?;
    let (plans, ahead) = read_plans(alloc, &decls, &ahead)?;
    read_end(&ahead)?;
    Ok(PlanFile { decls, plans })
}

/// The schedule file of a text, or the first fault of a text that has none.
pub fn parse_plans(alloc: Global, bytes: &[u8]) -> Result<PlanFile, ParseErr>
    requires { length bytes.now ≤ longest_file }
    ensures answer { PlanAnswers bytes.now result }
    ensures expandable { IfOk result (λ file.
        All (λ entry. IsPlanOfTexts (declarations file.decls) entry.1) file.plans.entries) }
{
    if let Err(fault) = start_text(bytes) {
        return Err(ParseErr::Text(fault));
    }
    match read_plan_file(alloc, bytes) {
        Ok(file) => Ok(file),
        Err(PartErr::Refused(refusal)) => {
            let at = bytes.len().saturating_sub(refusal.left);
            Err(ParseErr::Text(fault_at(bytes, refusal.kind, at)))
        }
        Err(PartErr::NoMemory) => Err(ParseErr::NoMemory),
    }
}
