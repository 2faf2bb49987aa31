//! Laws of tables of scenarios and of totals. Each is the contract of a function that does nothing;
//! a caller takes it by calling it.

ghost use Rattle.scenario_set.specs.LawsTables.{FaultyTablesHoldNoScenarios};
ghost use Rattle.scenario_set.specs.LawsTables.{ScenarioFaultsAreUnique, TablesHoldOneSet};
ghost use Rattle.scenario_set.specs.LawsTotals.{ScenariosAreWorth, TotalsAreOne};

use payoff_terms::laws::code_values_are_fixed;

/// Where code means a contract, plain or cut, each value of a total is what the contract is worth
/// in that scenario, whatever else is observed.
pub fn scenarios_are_worth()
    ensures { ScenariosAreWorth }
{
    code_values_are_fixed();
}

/// A table of scenarios has one answer: at most one record is the first that breaks a rule, and for
/// one rule; a table that has such a record holds no scenarios; and all lists of scenarios that a
/// table holds have the same names in the same order, each with the same value at each place.
pub fn scenario_tables_have_one_answer()
    ensures faults { ScenarioFaultsAreUnique }
    ensures either { FaultyTablesHoldNoScenarios }
    ensures sets { TablesHoldOneSet }
{}

/// What is asked of scenarios has one answer but for want of memory: that of every set with the
/// same names and maps.
pub fn totals_are_one()
    ensures { TotalsAreOne }
{
    code_values_are_fixed();
}
