//! What code is worth in each scenario of a set, and the total.

ghost use Rattle.std.specs.Prelude.{◌≡◌, ◌<◌, ◌≤ℤ◌, ◌+ℤ◌, ◌*ℤ◌, ◌++◌, ◌^◌, length, pos, int_lt};
ghost use Rattle.std.specs.Prelude.{IfOk, OnOk};
ghost use Rattle.term_model.specs.Declarations.{declarations};
ghost use Rattle.interval_check.specs.Safety.{IsSmall};
ghost use Rattle.scenario_set.specs.Scenarios.{AreAdmitted, rows_held};
ghost use Rattle.scenario_set.specs.Surveys.{CanBeAskedOver, CanBeSurveyed, HasRoomFor, asked_in};
ghost use Rattle.scenario_set.specs.Surveys.{inquiry, scenarios_in};
ghost use Rattle.scenario_set.specs.Totals.{AnswersTotals, AreSmallTotals, CanBeAsked};
ghost use Rattle.scenario_set.specs.Totals.{IsFirstGreatest, IsFirstLeast, inquiry_of, most_worth};
ghost use Rattle.scenario_set.specs.TotalSteps.{AnswersIn, AnswersOver, AnswersSum, TakesValue};
ghost use Rattle.scenario_set.specs.TotalSteps.{told_in};

use crate::outcomes::{Totals, TotalsErr};
use crate::scenarios::{Scenarios, SetRow, fixed_by, held_by};
use crate::surveys::{Asking, Survey};
use decimal::NoMemory;
use fixing_files::{Curve, Fixings, LayeredFixings};
use payoff_eval::{ValueScratch, value_layered, value_scratch};
use payoff_terms::CodeFile;
use payoff_terms::laws::code_values_are_fixed;
use std::alloc::Global;
use term_model::{Missing, Setting};

/// The greatest total in size, `10^37`.
const GREATEST_TOTAL: i128 = 10_000_000_000_000_000_000_000_000_000_000_000_000;

// Whether so many values of at most this size could add up to more than the limit.
fn is_too_many(count: u32, bound: i128) -> bool
    requires { pos 0 ≤ℤ bound }
    ensures { result ≡ int_lt (pos (10 ^ 37)) (pos count *ℤ bound) }
{
    match bound.checked_mul(count as i128) {
        Some(total) => GREATEST_TOTAL < total,
        None => true,
    }
}

// The first of the least values.
fn first_least(values: &[i128]) -> u32
    requires some { 0 < length values.now }
    requires few { length values.now < 2 ^ 32 }
    ensures { IsFirstLeast values.now result }
{
    let mut least = 0;
    for i in 0..values.len() {
        if values[i] < values[least] {
            least = i;
        }
    }
    least as u32
}

// The first of the greatest values.
fn first_greatest(values: &[i128]) -> u32
    requires some { 0 < length values.now }
    requires few { length values.now < 2 ^ 32 }
    ensures { IsFirstGreatest values.now result }
{
    let mut greatest = 0;
    for i in 0..values.len() {
        if values[greatest] < values[i] {
            greatest = i;
        }
    }
    greatest as u32
}

// What was found in a scenario.
fn told(scenario: u32, found: Result<i128, Missing>) -> Result<i128, TotalsErr>
    ensures { result ≡ told_in scenario found }
{
    match found {
        Ok(worth) => Ok(worth),
        Err(missing) => Err(TotalsErr::Missing {
            scenario,
            label: missing.label,
            day: missing.day,
        }),
    }
}

// What the code is worth where rows are laid over what holds in all scenarios.
fn value_over(
    alloc: Global,
    asking: &Asking,
    own: &[SetRow],
    common: &Fixings,
    scratch: &mut ValueScratch,
) -> Result<Result<i128, Missing>, NoMemory>
    requires over { CanBeAskedOver (inquiry asking.now) (rows_held own.now ++ common.now) }
    requires room { HasRoomFor (inquiry asking.now) scratch.old }
    ensures found { IfOk result (AnswersOver (inquiry asking.now) own.now common.now) }
    ensures room { scratch.new ≡ scratch.old }
{
    let few = held_by(alloc, own)?;
    let fixings = LayeredFixings::over(&few, common);
    Ok(value_layered(
        asking.file,
        asking.setting,
        &fixings,
        asking.curve,
        asking.at,
        asking.from,
        asking.to,
        asking.asset,
        scratch,
    ))
}

// What the code is worth in a scenario.
fn value_in(
    alloc: Global,
    survey: &Survey,
    i: u32,
    scratch: &mut ValueScratch,
) -> Result<i128, TotalsErr>
    requires survey { CanBeSurveyed (asked_in survey.now) (scenarios_in survey.now) }
    requires scenario { i < length survey.now.each.now }
    requires room { HasRoomFor (asked_in survey.now) scratch.old }
    ensures worth { AnswersIn (asked_in survey.now) (scenarios_in survey.now) i result }
    ensures room { scratch.new ≡ scratch.old }
{
    survey.asking.curve.rises();
    let own = &survey.each[i as usize].own;
    let Ok(found) = value_over(alloc, survey.asking, own, survey.common, scratch) else {
        return Err(TotalsErr::NoMemory);
    };
    told(i, found)
}

// The values in all scenarios, and their total.
#[derive(Drop)]
struct Summed {
    values: Vec<i128>,
    total: i128,
}

impl Summed {
    // Takes the value in the next scenario.
    fn take(&mut self, worth: i128) -> Result<(), NoMemory>
        requires { IsSmall (self.old.total +ℤ worth) }
        ensures { OnOk result (TakesValue self.old self.new worth) }
    {
        self.values.push(worth)?;
        self.total += worth;
        Ok(())
    }
}

// The values in all scenarios, and their total.
fn sum(alloc: Global, survey: &Survey) -> Result<Summed, TotalsErr>
    requires { CanBeSurveyed (asked_in survey.now) (scenarios_in survey.now) }
    ensures { AnswersSum (asked_in survey.now) (scenarios_in survey.now) result }
{
    let Ok(mut scratch) = value_scratch(alloc, survey.asking.file) else {
        return Err(TotalsErr::NoMemory);
    };
    let mut summed = Summed {
        values: Vec::new(alloc),
        total: 0,
    };
    let count = survey.each.len() as u32;
    for i in 0..count {
        let found = value_in(alloc, survey, i, &mut scratch);
        match found {
            Ok(worth) => {
                let Ok(()) = summed.take(worth) else {
                    return Err(TotalsErr::NoMemory);
                };
            }
            Err(stopped) => return Err(stopped),
        }
    }
    Ok(summed)
}

// The totals of scenarios that are laid out.
fn totals_of(alloc: Global, survey: &Survey) -> Result<Totals, TotalsErr>
    requires { CanBeSurveyed (asked_in survey.now) (scenarios_in survey.now) }
    ensures answer { AnswersTotals (asked_in survey.now) (scenarios_in survey.now) result }
    ensures small { IfOk result AreSmallTotals }
{
    let Summed { values, total } = sum(alloc, survey)?;
    let least = first_least(&values);
    let greatest = first_greatest(&values);
    Ok(Totals {
        values,
        total,
        least,
        greatest,
    })
}

// The totals of scenarios that are not too many.
fn totals_in(alloc: Global, asking: &Asking, set: &Scenarios) -> Result<Totals, TotalsErr>
    requires { CanBeSurveyed (inquiry asking.now) set.now }
    ensures answer { AnswersTotals (inquiry asking.now) set.now result }
    ensures small { IfOk result AreSmallTotals }
{
    let Ok(common) = fixed_by(alloc, &set.common) else {
        return Err(TotalsErr::NoMemory);
    };
    code_values_are_fixed();
    let survey = Survey {
        asking,
        common: &common,
        each: &set.each,
    };
    totals_of(alloc, &survey)
}

/// What a file's code, which is accepted at the setting, is worth in each scenario of a set, as
/// `value` answers it; the total of these values, and the first scenarios of the least and of the
/// greatest. `bound` is the most that the code can be worth in size, at nine decimals more than the
/// portfolio's. Where the count times the bound exceeds `10^37`, there are too many scenarios. Else
/// a place is missing exactly where the code reads one in some scenario that is not fixed there,
/// and it is the first such place in the first such scenario. What holds in all scenarios is laid
/// out once, and the rows of one are laid over it.
pub fn totals(
    alloc: Global,
    file: &CodeFile,
    setting: &Setting,
    bound: i128,
    set: &Scenarios,
    curve: &Curve,
    at: i64,
    from: u32,
    to: u32,
    asset: u32,
) -> Result<Totals, TotalsErr>
    requires inquiry { CanBeAsked
        (inquiry_of file.now setting.now curve.now at from to asset) }
    requires bound { bound
        ≡ pos (most_worth (inquiry_of file.now setting.now curve.now at from to asset)) }
    requires admitted { AreAdmitted (declarations file.now.decls) set.now }
    ensures answer { AnswersTotals (inquiry_of file.now setting.now curve.now at from to asset)
        set.now result }
    ensures small { IfOk result AreSmallTotals }
{
    let count = set.count();
    if is_too_many(count, bound) {
        return Err(TotalsErr::TooMany { count });
    }
    let asking = Asking {
        file,
        setting,
        curve,
        at,
        from,
        to,
        asset,
    };
    totals_in(alloc, &asking, set)
}
