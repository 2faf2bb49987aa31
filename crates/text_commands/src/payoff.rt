//! The command `payoff`.

ghost use Rattle.std.specs.Prelude.{◌≡◌, [], ◌∷◌, IfOk};
ghost use Rattle.term_model.specs.Declarations.{at_one_scale, declarations};
ghost use Rattle.term_model.specs.Terms.{contract};
ghost use Rattle.term_model.specs.WellFormed.{IsClosed};
ghost use Rattle.contract_parse.specs.NextContracts.{IsSoundContract};
ghost use Rattle.contract_grammar.specs.Writable.{IsWritableTerm};
ghost use Rattle.payoff_terms.specs.Code.{payoff_code};
ghost use Rattle.payoff_terms.specs.CodeBooks.{code_book};
ghost use Rattle.payoff_lang.specs.CodeCanon.{IsCanonOfCode};
ghost use Rattle.payoff_terms.specs.WritableCode.{IsWritableCode};
ghost use Rattle.command_words.specs.Words.{payoff_by};
ghost use Rattle.command_courses.specs.Inputs.{bytes_of};
ghost use Rattle.command_courses.specs.Stopping.{GoesDone};
ghost use Rattle.used_contracts.specs.AcceptingParts.{AnswersAcceptedOne};
ghost use Rattle.used_contracts.specs.UsedContracts.{at_defaults};
ghost use Rattle.text_commands.specs.PayoffCourse.{payoff_course, payoff_of};
ghost use Rattle.text_commands.specs.PayoffParts.{AnswersKeptNamed, AnswersNamed, IsKept};
ghost use Rattle.text_commands.specs.PayoffPromise.{IsAcceptedAtDefaults, code_asked, file_of};

use command_courses::{Inputs, Stop};
use command_words::Payoff;
use contract_parse::{ContractReader, NextContract};
use decimal::NoMemory;
use payoff_compile::{into_code, into_cut_code};
use payoff_lang::print_code;
use payoff_terms::{Code, CodeFile};
use report::Fault;
use std::alloc::Global;
use term_core::{has_only_numbers, instantiate};
use term_model::{Contr, Decls, Name, defaults};
use used_contracts::{accept_named, read_next, start_reading};

// The contract, if it has the name.
fn if_named(next: NextContract<'_>, word: &str) -> Option<Contr>
    ensures { IsKept word.now ((next.entry.name.now, contract next.entry.contr) ∷ []) result }
{
    if word.as_bytes() == next.name {
        Some(next.contr)
    } else {
        None
    }
}

// The contract of a name among those of a text. The others are dropped as they are read.
fn kept_named(
    alloc: Global,
    decls: &Decls,
    reader: ContractReader<'_>,
    word: &str,
) -> Result<Option<Contr>, Stop>
    ensures { AnswersKeptNamed (declarations decls.now) reader.entry word.now result }
{
    let mut reader = reader;
    let mut kept = None;
    while let Some(next) = read_next(alloc, decls, &mut reader)? {
        kept = kept.or(if_named(next, word));
    }
    Ok(kept)
}

// The same. It stops at a name that is that of no contract.
fn contract_named(
    alloc: Global,
    decls: &Decls,
    reader: ContractReader<'_>,
    word: &str,
) -> Result<Contr, Stop>
    ensures { AnswersNamed (declarations decls.now) reader.entry word.now result }
{
    match kept_named(alloc, decls, reader, word)? {
        Some(contr) => Ok(contr),
        None => {
            let name = Name::new(alloc, word.as_bytes())?;
            Err(Stop::Fault(Fault::UnknownName { name }))
        }
    }
}

// Stops at a contract of a name that is not accepted at the defaults. An instance is made only
// where it names a template.
fn accept_at_defaults(alloc: Global, decls: &Decls, name: &[u8], contr: &Contr) -> Result<(), Stop>
    requires { IsSoundContract (declarations decls.now) (contract contr.now) }
    ensures { AnswersAcceptedOne (declarations decls.now)
        (at_defaults (declarations decls.now) (name.now, contract contr.now)) result }
{
    if has_only_numbers(contr) {
        return accept_named(alloc, decls, name, contr);
    }
    let setting = defaults(alloc, decls)?;
    let made = instantiate(alloc, contr, &setting)?;
    accept_named(alloc, decls, name, &made)
}

// The code that is asked for of a contract.
fn code_asked(alloc: Global, decls: &Decls, contr: Contr, plain: bool) -> Result<Code, NoMemory>
    requires closed { IsClosed (declarations decls.now) (contract contr) }
    requires accepted { IsAcceptedAtDefaults (declarations decls.now) (contract contr) }
    ensures { IfOk result (λ code. payoff_code code ≡ code_asked plain (contract contr)) }
{
    if plain {
        into_code(alloc, decls, contr)
    } else {
        into_cut_code(alloc, decls, contr)
    }
}

// Code under a name, on declarations in version 1.
fn file_of(alloc: Global, decls: &Decls, name: &[u8], code: Code) -> Result<CodeFile, NoMemory>
    ensures { IfOk result (λ file. code_book file
        ≡ file_of (at_one_scale (declarations decls.now)) name.now (payoff_code code)) }
{
    let decls = decls.at_one_scale(alloc)?;
    let name = Name::new(alloc, name)?;
    Ok(CodeFile { decls, name, code })
}

// The canonical text of a code file.
fn file_text(alloc: Global, file: &CodeFile) -> Result<Vec<u8>, NoMemory>
    requires version { (code_book file.now).declarations.version ≡ 1 }
    requires writable { IsWritableCode (code_book file.now).code }
    ensures { IfOk result (λ text. IsCanonOfCode text.items (code_book file.now)) }
{
    let mut text = Vec::new(alloc);
    print_code(alloc, &mut text, file)?;
    Ok(text)
}

// The canonical text of the file of code.
fn code_text(alloc: Global, decls: &Decls, name: &[u8], code: Code) -> Result<Vec<u8>, NoMemory>
    requires { IsWritableCode (payoff_code code) }
    ensures { IfOk result (λ text. IsCanonOfCode text.items
        (file_of (at_one_scale (declarations decls.now)) name.now (payoff_code code))) }
{
    let file = file_of(alloc, decls, name, code)?;
    file_text(alloc, &file)
}

// What is written of the contract of the name: its code as it is written, behind the declarations;
// or what stops the command.
fn payoff_of(
    alloc: Global,
    decls: &Decls,
    contr: Contr,
    asked: &Payoff<'_>,
) -> Result<Vec<u8>, Stop>
    requires sound { IsSoundContract (declarations decls.now) (contract contr) }
    requires writable { IsWritableTerm (contract contr) }
    ensures { GoesDone
        (payoff_of (payoff_by asked.now) (declarations decls.now) (contract contr)) result }
{
    let name = asked.contract.as_bytes();
    accept_at_defaults(alloc, decls, name, &contr)?;
    let code = code_asked(alloc, decls, contr, asked.plain)?;
    let text = code_text(alloc, decls, name, code)?;
    Ok(text)
}

/// What `payoff` writes of the named contract of a portfolio: the code of the contract as it
/// is written, under its name and behind the portfolio's declarations; or what stops it. The other
/// contracts are read and dropped, and an instance is made only to be tried.
pub fn payoff_text(alloc: Global, asked: &Payoff<'_>, inputs: Inputs<'_>) -> Result<Vec<u8>, Stop>
    ensures { GoesDone (payoff_course (payoff_by asked.now) (bytes_of inputs.entry.files.now))
        result }
{
    let (decls, reader) = start_reading(alloc, inputs)?;
    let contr = contract_named(alloc, &decls, reader, asked.contract)?;
    payoff_of(alloc, &decls, contr, asked)
}
