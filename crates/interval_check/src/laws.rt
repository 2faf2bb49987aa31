//! What the rules of acceptance guarantee of an evaluation. Each law is the contract of a function
//! that does nothing; a caller takes the law by calling it.

ghost use Rattle.interval_check.specs.Guarantees.{DeclsKeepLimits, RulesAreByStructure};
ghost use Rattle.interval_check.specs.Guarantees.{AcceptedMeetRules, PartsMeetRules};
ghost use Rattle.interval_check.specs.Guarantees.{RulesDoNotSeeOffsets, ClosedNeedNoNames};
ghost use Rattle.interval_check.specs.Guarantees.{ValuesLieInIntervals, ExpressionsAreSafe};
ghost use Rattle.interval_check.specs.Guarantees.{BindingsLieWithin, ContractsAreSafe};
ghost use Rattle.interval_check.specs.Guarantees.{AcceptedAreSafe, PartsOfAcceptedAreSafe};
ghost use Rattle.interval_check.specs.Guarantees.{ClosedPartsAreSafe};
ghost use Rattle.interval_check.specs.Guarantees.{FlowsAddUpToTotal, AmountsAddUpToTotal};
ghost use Rattle.interval_check.specs.Volumes.{AllFlowsAddUpToTotal, AllAmountsAddUpToTotal};
ghost use Rattle.interval_check.specs.Narrowing.{IntervalsAreMonotone, TotalsAreMonotone};
ghost use Rattle.interval_check.specs.Narrowing.{RulesAreMonotone, ContractRulesAreMonotone};

/// The declarations that a program holds keep their limits, as the laws below ask.
pub fn declarations_keep_limits()
    ensures { DeclsKeepLimits }
{}

/// The rules on sorts, scales and bounds hold in the order of trial exactly where they hold by
/// structure. So an accepted contract meets them by structure, and so does each expression that
/// stands in it, without any names where it uses none from outside.
pub fn rules_hold_by_structure()
    ensures rules { RulesAreByStructure }
    ensures accepted { AcceptedMeetRules }
    ensures parts { PartsMeetRules }
    ensures closed { ClosedNeedNoNames }
{}

/// The rules on sorts, scales and bounds do not see offsets: an expression that is read some days
/// later meets those that it meets as it stands.
pub fn rules_see_no_offsets()
    ensures { RulesDoNotSeeOffsets }
{}

/// The value of an expression lies in its interval, in every admitted environment and on every day.
pub fn values_lie_in_intervals()
    ensures { ValuesLieInIntervals }
{}

/// What meets the rules can be evaluated in 128 bits: no number leaves them, and no divisor is 0. A
/// name that is bound to a value on the way lies within its range, as what stands below it asks.
pub fn evaluation_is_safe()
    ensures expressions { ExpressionsAreSafe }
    ensures bindings { BindingsLieWithin }
    ensures contracts { ContractsAreSafe }
{}

/// An accepted contract can be evaluated in 128 bits, and so can each expression that stands in it.
pub fn accepted_contracts_are_safe()
    ensures contracts { AcceptedAreSafe }
    ensures parts { PartsOfAcceptedAreSafe }
    ensures closed { ClosedPartsAreSafe }
{}

/// Over any days, what a contract pays between two parties in an asset adds up to at most its
/// total.
pub fn payments_add_up_to_total()
    ensures flows { FlowsAddUpToTotal }
    ensures amounts { AmountsAddUpToTotal }
{}

/// Over all days, pairs of parties and assets at once, what a contract pays adds up to at most its
/// total.
pub fn all_payments_add_up_to_total()
    ensures flows { AllFlowsAddUpToTotal }
    ensures amounts { AllAmountsAddUpToTotal }
{}

/// Where names have narrower ranges, expressions have narrower intervals and contracts no greater
/// totals, and the rules that held still hold.
pub fn narrower_ranges_keep_rules()
    ensures expressions { IntervalsAreMonotone }
    ensures contracts { TotalsAreMonotone }
    ensures expression_rules { RulesAreMonotone }
    ensures contract_rules { ContractRulesAreMonotone }
{}
