//! Laws over the definitions alone. Each is the contract of a function that does nothing.

ghost use Rattle.specialise.specs.LawsSpecial.{SpecialisedKinds, SpecialisedValues};
ghost use Rattle.specialise.specs.LawsSpecial.{SpecialisedReads, SpecialisedIsSmaller};
ghost use Rattle.specialise.specs.LawsSpecial.{NothingIsTold, SpecialisedShifts};
ghost use Rattle.specialise.specs.LawsSpecialContracts.{ContractScales, ContractFlows};
ghost use Rattle.specialise.specs.LawsSpecialContracts.{ContractReads, ContractIsSmaller};
ghost use Rattle.specialise.specs.LawsSpecialContracts.{SpecialisedCarries, SpecialisedLeavesNone};
ghost use Rattle.specialise.specs.LawsParts.{AcceptedMaySpecialise, PartsOfPartsMaySpecialise};
ghost use Rattle.specialise.specs.LawsParts.{WellFormedHaveOffsets};
ghost use Rattle.specialise.specs.LawsAccepted.{SpecialisedIsTyped, SpecialisedIsWellFormed};
ghost use Rattle.specialise.specs.LawsAccepted.{SpecialisedReplaces, SpecialisedIsAccepted};

/// A specialised expression has the kind and the value of the expression, reads no more, and is the
/// same or smaller.
#[tactic(none)]
pub fn specialised_means()
    ensures kinds { SpecialisedKinds }
    ensures values { SpecialisedValues }
    ensures reads { SpecialisedReads }
    ensures size { SpecialisedIsSmaller }
    ensures unknown { NothingIsTold }
    ensures shifts { SpecialisedShifts }
{}

/// So does a specialised contract, on its frame.
#[tactic(none)]
pub fn specialised_contract_means()
    ensures scales { ContractScales }
    ensures flows { ContractFlows }
    ensures reads { ContractReads }
    ensures size { ContractIsSmaller }
    ensures carries { SpecialisedCarries }
    ensures none { SpecialisedLeavesNone }
{}

/// A specialised contract is accepted where the contract is.
#[tactic(none)]
pub fn specialised_are_accepted()
    ensures times { SpecialisedIsTyped }
    ensures well_formed { SpecialisedIsWellFormed }
    ensures rules { SpecialisedReplaces }
    ensures accepted { SpecialisedIsAccepted }
{}

/// The expressions that stand directly in an accepted contract, and in the contracts in it, are
/// parts of an accepted contract, and so on down to the last; and what is well formed has its
/// offsets within their limit.
#[tactic(none)]
pub fn parts_may_be_specialised()
    ensures whole { AcceptedMaySpecialise }
    ensures parts { PartsOfPartsMaySpecialise }
    ensures offsets { WellFormedHaveOffsets }
{}
