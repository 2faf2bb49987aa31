//! Laws of plans and their expansions. Each is the contract of a function that does nothing; a
//! caller takes the law by calling it.

ghost use Rattle.schedule_forms.specs.LawsTexts.{ExpandedTextsAreSpellable, OnePlanFault, OnePlanFile, PlanTextsHaveNoFault, PlansOfTextsAreExpandable};
ghost use Rattle.schedule_forms.specs.PlanFrontLaws.{PlanFaultsEndFronts, PlanFrontsGoOn, PlanTextsAreWhole};
ghost use Rattle.schedule_forms.specs.PlanFrontRows.{PlanFrontRows};
ghost use Rattle.schedule_forms.specs.LawsSchedules.{AcceptedExpansionsPay, DeclaredExpansionsPay, ExpansionsAreClosed, ExpansionsAreSmall, ExpansionsAreSortedAndTimed, TestsDecideDays, TreesHalve};

/// What is written for a plan pays what the plan says, on each day and in each environment: where
/// it is accepted, and then its literals are within the limits of texts; and over declarations that
/// have what the plan names.
pub fn expansions_pay()
    ensures accepted { AcceptedExpansionsPay }
    ensures declared { DeclaredExpansionsPay }
{}

/// Over declarations that have what the plan names, its expansion is closed and has numbers for day
/// counts.
pub fn expansions_are_closed()
    ensures { ExpansionsAreClosed }
{}

/// And it meets the rules on sorts and times: only those on scales, sizes and bounds can refuse it.
pub fn expansions_are_sorted_and_timed()
    ensures { ExpansionsAreSortedAndTimed }
{}

/// An expansion has a height of at most 200 and at most 100,000 nodes.
pub fn expansions_are_small()
    ensures { ExpansionsAreSmall }
{}

/// The own days on which a leg pays are decided as they are said.
pub fn tests_decide_days()
    ensures { TestsDecideDays }
{}

/// Payments in a tree are halved, down to single ones.
pub fn trees_halve()
    ensures { TreesHalve }
{}

/// Every plan of a text is within the limits and names only what is declared, so it can be
/// expanded.
pub fn plans_of_texts_are_expandable()
    ensures { PlansOfTextsAreExpandable }
{}

/// A text of a schedule file has no fault.
pub fn plan_texts_have_no_fault()
    ensures { PlanTextsHaveNoFault }
{}

/// A text stands for at most one schedule file, and bytes have at most one first fault.
pub fn plan_texts_are_one()
    ensures file { OnePlanFile }
    ensures fault { OnePlanFault }
{}

/// The declarations and the expansions of a text are within the limits of texts. So the canonical
/// text of that portfolio is a text of it.
pub fn expanded_texts_are_spellable()
    ensures { ExpandedTextsAreSpellable }
{}

/// A fault of bytes that are UTF-8 stands at a token behind a front of schedule files, and is of
/// Syntax exactly where with that token there is none.
pub fn plan_faults_end_fronts()
    ensures { PlanFaultsEndFronts }
{}

/// The tokens of a schedule file's text are whole by the forms of its grammar.
pub fn plan_texts_are_whole()
    ensures { PlanTextsAreWhole }
{}

/// A front of schedule files is what goes on to a whole, names and limits aside.
pub fn plan_fronts_go_on()
    ensures { PlanFrontsGoOn }
{}

/// Small schedule files stop being fronts where they should, so that the laws on fronts speak of
/// something.
pub fn rows_of_plan_fronts()
    ensures { PlanFrontRows }
{}
