//! How the text of a portfolio begins, and what stands behind the name of a contract.
ghost use Rattle.std.specs.Prelude.{◌≡◌, ◌≤◌, ◌<◌, ◌∷◌, [], true, IfOk, codes, length};
ghost use Rattle.term_model.specs.Declarations.{declarations};
ghost use Rattle.term_model.specs.Sizes.{height_of_contract};
ghost use Rattle.term_model.specs.Terms.{contract};
ghost use Rattle.contract_grammar.specs.Tokens.{tokens};
ghost use Rattle.contract_grammar.specs.Names.{nothing_declared};
ghost use Rattle.term_model.specs.Limits.{is_a_version, longest_file, most_height};
ghost use Rattle.contract_grammar.specs.Versions.{version_of};
ghost use Rattle.contract_grammar.specs.Judgements.{is_the_version};
ghost use Rattle.contract_grammar.specs.Spelling.{contr, mark, one, word, ◌⨟◌};
ghost use Rattle.contract_grammar.specs.Statements.{beginning};
ghost use Rattle.contract_grammar.specs.Statements.{portfolio};
ghost use Rattle.contract_parse.specs.Expecting.{ContrAt, ContractLines, Leaves, TextVersion, TheMark, TheWord, decls_expected, expected_behind, run, text_expected};
ghost use Rattle.contract_parse.specs.Reading.{declared_in, tokens_ahead};
ghost use Rattle.contract_parse.specs.Readers.{BeginsText, Passes, Reads};

use crate::contrs::read_contr;
use crate::cursor::start_text;
use crate::decls::read_decls;
use crate::faults::PartErr;
use crate::frame::Frame;
use crate::readers::{read_version, skip_mark, skip_word};
use crate::short_texts::ShortText;
use crate::words::Lookahead;
use indexmap::IndexMap;
use std::alloc::Global;
use term_model::{Contr, Decls, Scope};

/// A contract behind its name, to the end of its line.
#[tactic(auto, using(contract_grammar::proofs::Parts::followed_by))]
pub fn read_definition<'a>(
    alloc: Global,
    decls: &Decls,
    rest: &'a [u8],
) -> Result<(Contr, &'a [u8]), PartErr>
    ensures reads { Reads (Passes decls.now (λ s ps.
        TheMark (codes "=") ∷ ContrAt s.version 1 [] ∷ TheMark (codes ";") ∷ ps))
        (λ r. mark (codes "=") ⨟ contr (declared_in decls.now []) [] (contract r.0)
        ⨟ mark (codes ";")) (λ r. r.1.now) rest.now result }
    ensures high { IfOk result (λ r. height_of_contract (contract r.0) ≤ most_height) }
    ensures shorter { IfOk result (λ r. length r.1.now < length rest.now) }
{
    let rest = skip_mark(rest, b"=")?;
    let frame = Frame {
        decls,
        bound: &Scope::Empty,
        depth: 0,
    };
    let (body, rest) = read_contr(alloc, &frame, rest)?;
    let rest = skip_mark(rest, b";")?;
    Ok((body, rest))
}

// The first line, which says the version.
#[tactic(auto, using(contract_grammar::proofs::Parts::followed_by))]
fn read_first_line(rest: &[u8]) -> Result<(u8, &[u8]), PartErr>
    ensures reads { Reads (BeginsText (λ r. version_of r.0)
        (λ ps. TheWord (codes "portfolio") ∷ TextVersion ∷ ps)
        (λ v ps. decls_expected v (ContractLines v ∷ ps)))
        (λ r. word (codes "portfolio") ⨟ one (is_the_version r.0) ⨟ mark (codes ";"))
        (λ r. r.1.now) rest.now result }
    ensures limits { IfOk result (λ r. is_a_version r.0 ≡ true) }
{
    let rest = skip_word(rest, b"portfolio")?;
    let (version, rest) = read_version(rest)?;
    let rest = skip_mark(rest, b";")?;
    Ok((version, rest))
}

/// The first line and the declarations of a text, and the token that comes next.
pub fn read_beginning<'a>(alloc: Global, bytes: &'a [u8]) -> Result<(Decls, Lookahead<'a>), PartErr>
    requires { length bytes.now ≤ longest_file }
    ensures follows { Leaves (λ r. run (declared_in r.0 [])
        (expected_behind (version_of r.0.version)) (tokens_ahead r.1)) result
        (run nothing_declared text_expected (tokens bytes.now)) }
    ensures spelled { IfOk result (λ r.
        beginning (declarations r.0) (tokens bytes.now) (tokens_ahead r.1)) }
    ensures within { IfOk result (λ r. length r.1.after.now ≤ length bytes.now) }
{
    let (version, rest) = read_first_line(bytes)?;
    read_decls(alloc, version, rest)
}
