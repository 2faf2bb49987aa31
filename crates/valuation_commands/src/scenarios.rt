//! The command `scenarios`.

ghost use Rattle.std.specs.Prelude.{◌≡◌, ◌≤◌, ◌+◌, IfOk};
ghost use Rattle.term_model.specs.Declarations.{declarations};
ghost use Rattle.payoff_terms.specs.CodeBooks.{code_book};
ghost use Rattle.scenario_set.specs.Scenarios.{AreAdmitted};
ghost use Rattle.scenario_set.specs.TotalLines.{CanBeWritten, total_text};
ghost use Rattle.report.specs.declared.fault_lines.Fault.TheVariants as fault;
ghost use Rattle.command_words.specs.Words.{scenarios_by};
ghost use Rattle.command_courses.specs.Inputs.{bytes_of, file_at};
ghost use Rattle.command_courses.specs.Names.{label_name};
ghost use Rattle.command_courses.specs.Stopping.{GoesDone};
ghost use Rattle.valuation_commands.specs.ScenarioParts.{AnswersSet, AnswersTotalsOf};
ghost use Rattle.valuation_commands.specs.ScenarioParts.{IsStopOfTotals, LacksInOne, by_factors};
ghost use Rattle.valuation_commands.specs.ScenarioParts.{totals_by_curve, totals_by_tables};
ghost use Rattle.valuation_commands.specs.ScenariosCourse.{scenarios_course};
ghost use Rattle.valuation_commands.specs.ValueParts.{IsReadable, MayAsk, inquiry_of, most_of};

use crate::asking::{Asking, asking_of, code_of, curve_of};
use command_courses::{Inputs, Stop, label_name};
use command_words::Scenarios as Asked;
use decimal::{Mode, NoMemory};
use fixing_files::{Curve, RowErr};
use payoff_terms::CodeFile;
use report::Fault;
use scenario_set::{Scenarios, Totals, TotalsErr, read_scenarios, total_lines, totals};
use std::alloc::Global;
use term_model::{Decls, Name};

// The scenarios of the second file.
fn scenarios_of(alloc: Global, decls: &Decls, inputs: Inputs<'_>) -> Result<Scenarios, Stop>
    ensures { AnswersSet (declarations decls.now) (file_at (bytes_of inputs.entry.files.now) 1)
        result }
{
    match read_scenarios(alloc, inputs.file(1), decls) {
        Ok(set) => Ok(set),
        Err(RowErr::Row(fault)) => Err(Stop::Fault(Fault::Row { place: 2, fault })),
        Err(RowErr::NoMemory) => Err(Stop::NoMemory),
    }
}

// The fault that a place is not fixed in a scenario.
fn missing_in(
    alloc: Global,
    decls: &Decls,
    scenario: &Name,
    label: u32,
    day: i64,
) -> Result<Fault, NoMemory>
    ensures { IfOk result (λ found. found
        ≡ fault.MissingIn (label_name (declarations decls.now) label) day scenario.now) }
{
    let label = Name::new(alloc, label_name(decls, label))?;
    let scenario = scenario.clone()?;
    Ok(Fault::MissingIn {
        label,
        day,
        scenario,
    })
}

// What stops a command whose scenarios have no total.
fn stop_of_totals(alloc: Global, decls: &Decls, set: &Scenarios, error: TotalsErr) -> Stop
    requires { LacksInOne set.now error }
    ensures { IsStopOfTotals (declarations decls.now) set.now error result }
{
    match error {
        TotalsErr::TooMany { count } => Stop::Fault(Fault::Scenarios { count }),
        TotalsErr::Missing {
            scenario,
            label,
            day,
        } => match missing_in(alloc, decls, set.name(scenario), label, day) {
            Ok(fault) => Stop::Fault(fault),
            Err(NoMemory) => Stop::NoMemory,
        },
        TotalsErr::NoMemory => Stop::NoMemory,
    }
}

// What the code is worth in each scenario, and the total.
fn totals_of(
    alloc: Global,
    file: &CodeFile,
    asking: &Asking,
    set: &Scenarios,
    curve: &Curve,
) -> Result<Totals, Stop>
    requires readable { IsReadable (code_book file.now) }
    requires asks { MayAsk (inquiry_of file.now asking.now) }
    requires most { asking.now.most ≡ most_of (code_book file.now) }
    requires admitted { AreAdmitted (declarations file.now.decls) set.now }
    ensures { AnswersTotalsOf (by_factors (inquiry_of file.now asking.now) curve.now) set.now
        result }
{
    let parties = asking.parties;
    match totals(
        alloc,
        file,
        &asking.setting,
        asking.most,
        set,
        curve,
        asking.day,
        parties.from,
        parties.to,
        parties.asset,
    ) {
        Ok(totals) => Ok(totals),
        Err(error) => Err(stop_of_totals(alloc, &file.decls, set, error)),
    }
}

// The lines of totals, at nine decimals more than amounts.
fn lines_of(
    alloc: Global,
    set: &Scenarios,
    totals: &Totals,
    mean: Mode,
    amounts: u8,
) -> Result<Vec<u8>, NoMemory>
    requires totals { CanBeWritten set.now totals.now }
    requires decimals { amounts ≤ 12 }
    ensures { IfOk result (λ text. text.items ≡ total_text set.now totals.now mean (amounts + 9)) }
{
    let mut text = Vec::new(alloc);
    total_lines(alloc, &mut text, set, totals, mean, amounts + 9)?;
    Ok(text)
}

// The lines over scenarios and the curve of the third file.
fn by_curve(
    alloc: Global,
    file: &CodeFile,
    asking: &Asking,
    set: &Scenarios,
    mean: Mode,
    inputs: Inputs<'_>,
) -> Result<Vec<u8>, Stop>
    requires readable { IsReadable (code_book file.now) }
    requires asks { MayAsk (inquiry_of file.now asking.now) }
    requires most { asking.now.most ≡ most_of (code_book file.now) }
    requires admitted { AreAdmitted (declarations file.now.decls) set.now }
    ensures { GoesDone (totals_by_curve (inquiry_of file.now asking.now) set.now mean
        (file_at (bytes_of inputs.entry.files.now) 2)) result }
{
    let curve = curve_of(alloc, inputs)?;
    let totals = totals_of(alloc, file, asking, set, &curve)?;
    let text = lines_of(alloc, set, &totals, mean, file.decls.amounts)?;
    Ok(text)
}

// The same over the scenarios of the second file.
fn by_tables(
    alloc: Global,
    file: &CodeFile,
    asking: &Asking,
    mean: Mode,
    inputs: Inputs<'_>,
) -> Result<Vec<u8>, Stop>
    requires readable { IsReadable (code_book file.now) }
    requires asks { MayAsk (inquiry_of file.now asking.now) }
    requires most { asking.now.most ≡ most_of (code_book file.now) }
    ensures { GoesDone (totals_by_tables (inquiry_of file.now asking.now) mean
        (file_at (bytes_of inputs.entry.files.now) 1)
        (file_at (bytes_of inputs.entry.files.now) 2)) result }
{
    let set = scenarios_of(alloc, &file.decls, inputs)?;
    by_curve(alloc, file, asking, &set, mean, inputs)
}

/// The lines of what a code file is worth in each scenario of a table, and of the total; or what
/// stops the command.
pub fn scenarios_text(alloc: Global, asked: &Asked<'_>, inputs: Inputs<'_>) -> Result<Vec<u8>, Stop>
    ensures { GoesDone (scenarios_course (scenarios_by asked.now) (bytes_of inputs.entry.files.now))
        result }
{
    let file = code_of(alloc, inputs)?;
    let asking = asking_of(alloc, &file, &asked.value)?;
    by_tables(alloc, &file, &asking, asked.mean, inputs)
}
