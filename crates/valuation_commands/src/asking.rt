//! The code of a file, and what the words ask of it: at which setting, on which day, between whom;
//! and the curve of a table.

ghost use Rattle.fixing_files.specs.CurveTables.{HoldsCurve};
ghost use Rattle.fixing_files.specs.Tables.{table_of};
ghost use Rattle.payoff_terms.specs.CodeBooks.{code_book};
ghost use Rattle.command_words.specs.Words.{value_by};
ghost use Rattle.command_courses.specs.Inputs.{bytes_of, file_at};
ghost use Rattle.command_courses.specs.Stopping.{AnswersBy};
ghost use Rattle.valuation_commands.specs.ValueParts.{AnswersAsking, IsAcceptedUpTo, IsReadFrom};
ghost use Rattle.valuation_commands.specs.ValueParts.{IsReadable};
ghost use Rattle.valuation_commands.specs.ValueStages.{IsBadCode, IsCurveFault, IsRefusedCode};

use crate::value_names::{Parties, know_names, setting_of};
use command_courses::{Inputs, Stop, day_asked};
use command_words::Value;
use decimal::align;
use fixing_files::{Curve, RowErr, read_curve};
use flow_eval::LAST_DAY;
use payoff_check::check_code;
use payoff_lang::parse_code;
use payoff_terms::CodeFile;
use report::Fault;
use std::alloc::Global;
use term_model::{CheckErr, Setting};

/// The code file of a command's first file.
pub fn code_of(alloc: Global, inputs: Inputs<'_>) -> Result<CodeFile, Stop>
    ensures { AnswersBy
        (λ file. IsReadFrom (file_at (bytes_of inputs.entry.files.now) 0) (code_book file))
        (IsBadCode (file_at (bytes_of inputs.entry.files.now) 0)) result }
{
    let file = parse_code(alloc, inputs.file(0))?;
    Ok(file)
}

/// What is asked of a code file that is accepted at a setting: on which day, between whom; and the
/// most that its code can be worth in size, at nine decimals more than amounts.
#[derive(Drop)]
pub struct Asking {
    pub setting: Setting,
    pub day: i64,
    pub parties: Parties,
    pub most: i128,
}

// The most that the code can be worth in size. It stops where the code is not accepted at the
// setting.
fn accept_code(alloc: Global, file: &CodeFile, setting: &Setting) -> Result<i128, Stop>
    requires { IsReadable (code_book file.now) }
    ensures { AnswersBy (IsAcceptedUpTo (code_book file.now) setting.now.days.items)
        (IsRefusedCode (code_book file.now) setting.now.days.items) result }
{
    match check_code(alloc, file, setting) {
        Ok(facts) => Ok(align(facts.total, facts.scale, file.decls.amounts + 9)),
        Err(CheckErr::Refused { rule, node }) => {
            let name = file.name.clone()?;
            Err(Stop::Fault(Fault::Refused { name, rule, node }))
        }
        Err(CheckErr::NoMemory) => Err(Stop::NoMemory),
    }
}

/// What the words ask of a code file, where the names are declared, the day is in range, and the
/// code is accepted at the numbers that are set.
pub fn asking_of(alloc: Global, file: &CodeFile, value: &Value<'_>) -> Result<Asking, Stop>
    requires { IsReadable (code_book file.now) }
    ensures { AnswersAsking (value_by value.now) file.now result }
{
    let parties = know_names(alloc, &file.decls, value)?;
    let day = day_asked(alloc, &file.decls, value.at, LAST_DAY)?;
    let setting = setting_of(alloc, &file.decls, &value.settings)?;
    let most = accept_code(alloc, file, &setting)?;
    Ok(Asking {
        setting,
        day,
        parties,
        most,
    })
}

/// The curve of a command's third file.
pub fn curve_of(alloc: Global, inputs: Inputs<'_>) -> Result<Curve, Stop>
    ensures { AnswersBy (HoldsCurve (table_of (file_at (bytes_of inputs.entry.files.now) 2)))
        (IsCurveFault (file_at (bytes_of inputs.entry.files.now) 2) 3) result }
{
    match read_curve(alloc, inputs.file(2)) {
        Ok(curve) => Ok(curve),
        Err(RowErr::Row(fault)) => Err(Stop::Fault(Fault::Row { place: 3, fault })),
        Err(RowErr::NoMemory) => Err(Stop::NoMemory),
    }
}
