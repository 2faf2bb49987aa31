//! Laws over the definitions alone. Each is the contract of a function that does nothing.

ghost use Rattle.simplify.specs.Turning.{TurnsEnd, TurnsKeepValues};
ghost use Rattle.simplify.specs.TurningContracts.{ContractTurnsEnd, PlainLeavesNone};
ghost use Rattle.simplify.specs.LawsTurnsKeep.{TurnsKeepFlows, TurnsKeepAmounts, TurnsReadLess};
ghost use Rattle.simplify.specs.LawsTurnsKeep.{TurnsTransferLess, ContractTurnsReadLess};
ghost use Rattle.simplify.specs.LawsTurnsKeep.{TurnsCarry};
ghost use Rattle.simplify.specs.LawsTurnsAccepted.{TurnsKeepTypes, TurnsKeepForms, TurnsKeepSizes};
ghost use Rattle.simplify.specs.LawsRulesStand.{TruthsHaveNothing, RuleReplaces};
ghost use Rattle.simplify.specs.LawsRulesStand.{ContractRuleReplaces};
ghost use Rattle.simplify.specs.LawsTurnsStand.{TurnsKeepForm, TurnsReplace, ContractTurnsReplace};
ghost use Rattle.simplify.specs.LawsTurnsStand.{TurnIsAccepted};
ghost use Rattle.simplify.specs.LawsTurnShifts.{TurnsSeeNoOffsets};

/// A turn of the simplifier leaves an expression as it is, and then it holds no redex that asks for
/// no frame, or makes it smaller.
#[tactic(none)]
pub fn turns_end()
    ensures end { TurnsEnd }
    ensures values { TurnsKeepValues }
    ensures contracts { ContractTurnsEnd }
    ensures none { PlainLeavesNone }
{}

/// A turn of a contract pays what the contract pays.
#[tactic(none)]
pub fn turns_keep_contracts()
    ensures flows { TurnsKeepFlows }
    ensures amounts { TurnsKeepAmounts }
    ensures reads { TurnsReadLess }
    ensures transfers { TurnsTransferLess }
    ensures contract_reads { ContractTurnsReadLess }
    ensures carry { TurnsCarry }
{}

/// A turn of an accepted contract keeps the rules.
#[tactic(none)]
pub fn turns_are_accepted()
    ensures times { TurnsKeepTypes }
    ensures well_formed { TurnsKeepForms }
    ensures sizes { TurnsKeepSizes }
{}

/// What a rule of the simplifier makes of an expression or a contract may stand in its place.
#[tactic(none)]
pub fn rules_may_stand()
    ensures truths { TruthsHaveNothing }
    ensures expressions { RuleReplaces }
    ensures contracts { ContractRuleReplaces }
{}

/// A turn of an accepted contract is accepted.
#[tactic(none)]
pub fn turned_contracts_are_accepted()
    ensures forms { TurnsKeepForm }
    ensures expressions { TurnsReplace }
    ensures contracts { ContractTurnsReplace }
    ensures accepted { TurnIsAccepted }
{}

/// A turn of an expression that is read some days later is the turn of the expression, read so many
/// days later.
#[tactic(none)]
pub fn turns_see_no_offsets()
    ensures { TurnsSeeNoOffsets }
{}
