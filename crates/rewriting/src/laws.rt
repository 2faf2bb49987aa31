//! Laws over the definitions alone. Each is the contract of a function that does nothing.

ghost use Rattle.rewriting.specs.LawsNames.{KindsWithoutName, ValuesWithoutName};
ghost use Rattle.rewriting.specs.LawsNames.{FlowsWithoutName, ReadsWithoutName};
ghost use Rattle.rewriting.specs.LawsNames.{ContractReadsWithoutName};
ghost use Rattle.rewriting.specs.LawsRules.{RulesWithoutName, ContractRulesWithoutName};
ghost use Rattle.rewriting.specs.Reduced.{ReducedByStructure};
ghost use Rattle.rewriting.specs.Replacing.{PartsStandForThemselves, ReplacementsCompose};
ghost use Rattle.rewriting.specs.Replacing.{RewrittenReplaces, RewrittenContractReplaces};
ghost use Rattle.rewriting.specs.Replacing.{RewrittenMeetRules};
ghost use Rattle.rewriting.specs.Replacing.{ValuesReplace, BranchesReplace, ContractPartsReplace};

/// A literal that has the kind and the value of a name may stand for it, and a name that is not
/// used may go.
#[tactic(none)]
pub fn names_may_go()
    ensures kinds { KindsWithoutName }
    ensures values { ValuesWithoutName }
    ensures flows { FlowsWithoutName }
    ensures reads { ReadsWithoutName }
    ensures contract_reads { ContractReadsWithoutName }
{}

/// To the rules on sorts, scales and bounds a literal may stand for its name, and a name that is
/// not used may go.
#[tactic(none)]
pub fn rules_see_no_names()
    ensures expressions { RulesWithoutName }
    ensures contracts { ContractRulesWithoutName }
{}

/// Where no redex of a kind stands in a contract by structure, none stands in it.
#[tactic(none)]
pub fn reduced_by_structure()
    ensures { ReducedByStructure }
{}

/// A contract of which parts are replaced keeps the rules, where each new part meets them and has,
/// in an expression, the kind and no wider an interval, and in a contract, no greater a scale and
/// no greater a total.
#[tactic(none)]
pub fn replaced_parts_keep_rules()
    ensures unchanged { PartsStandForThemselves }
    ensures composed { ReplacementsCompose }
    ensures expressions { RewrittenReplaces }
    ensures contracts { RewrittenContractReplaces }
    ensures accepted { RewrittenMeetRules }
{}

/// What may stand for a whole: the value of an expression in an admitted environment, a branch of
/// an `if` at the scale of the whole, and in a contract `zero`, each part of a `both`, of an
/// `after` and of an `if .. within`.
#[tactic(none)]
pub fn parts_may_stand_for_wholes()
    ensures values { ValuesReplace }
    ensures branches { BranchesReplace }
    ensures contracts { ContractPartsReplace }
{}
