//! Names that are declared, by their indices.

ghost use Rattle.std.specs.Prelude.{◌≡◌, ◌<◌, ◌^◌, Some};
ghost use Rattle.indexmap.specs.IndexSet.{index_set_len};
ghost use Rattle.term_model.specs.Declarations.{declarations};
ghost use Rattle.contract_grammar.specs.Names.{index_in};
ghost use Rattle.command_courses.specs.Names.{IsUndeclared, label_name};
ghost use Rattle.command_courses.specs.Stopping.{AnswersBy};

use crate::stop::Stop;
use indexmap::IndexSet;
use report::Fault;
use std::alloc::Global;
use term_model::{Decls, Name};

/// The name of a declared label.
pub fn label_name(decls: &Decls, label: u32) -> &[u8]
    ensures { result.now ≡ label_name (declarations decls.now) label }
{
    match decls.labels.get_index(label as usize) {
        Some((name, _)) => name.text(),
        None => &[],
    }
}

/// The index of a name, or the fault that it is not declared.
pub fn index_of(alloc: Global, names: &IndexSet<Name>, word: &str) -> Result<u32, Stop>
    requires { index_set_len names.now < 2 ^ 32 }
    ensures { AnswersBy (λ index. index_in names.now.keys word.now ≡ Some index)
        (IsUndeclared names.now.keys word.now) result }
{
    match names.get_index_of(word.as_bytes()) {
        Some(index) => Ok(index as u32),
        None => {
            let name = Name::new(alloc, word.as_bytes())?;
            Err(Stop::Fault(Fault::UnknownName { name }))
        }
    }
}
