//! Laws that follow from the definitions of the model alone. Each is the contract of a function
//! that does nothing; a caller takes the law by calling it.

ghost use Rattle.term_model.specs.LawsFlows.{AmountsAreOpposite, AmountsEndAtHorizon};
ghost use Rattle.term_model.specs.LawsFlows.{AmountsBeginAtZero, HorizonIsWithinReach};
ghost use Rattle.term_model.specs.LawsScales.{AmountsAreMultiples, AssetsAreScaledByPayments};
ghost use Rattle.term_model.specs.LawsScales.{ScalesAreKept, OneScaleDecides, AcceptedAtOneScale};
ghost use Rattle.term_model.specs.LawsResiduals.{CarriesItself, CarriesComposes};
ghost use Rattle.term_model.specs.LawsReads.{ReadsStayUpToUnfixed, AmountsAreFixed};
ghost use Rattle.term_model.specs.LawsReads.{ValuesDependOnReads, AmountsDependOnReads};
ghost use Rattle.term_model.specs.LawsReads.{ExpressionReadsStay, ValuesAreFixed, ReadsGrow};
ghost use Rattle.term_model.specs.LawsShifts.{ShiftsMoveTheDay, ReadsMoveTheDay};
ghost use Rattle.term_model.specs.LawsAcceptance.{RefusalsAreUnique, AcceptedAreNotRefused};
ghost use Rattle.term_model.specs.LawsAcceptance.{RulesHoldOrFail, FaultsAreUnique};
ghost use Rattle.term_model.specs.LawsInstances.{InstancesHaveNumbers, InstancesAreWellFormed};
ghost use Rattle.term_model.specs.LawsInstances.{SettingsSuit, DefaultsSuit};
ghost use Rattle.term_model.specs.LawsTimes.{TimesMeanTyped};
ghost use Rattle.term_model.specs.LawsKinds.{ValuesHaveKinds};
ghost use Rattle.term_model.specs.LawsFactors.{CurvesAnswerFactors};
ghost use Rattle.term_model.specs.LawsDeclarations.{ClosedAtOneScale, DeclarationsGiveForms};
ghost use Rattle.term_model.specs.LawsDeclarations.{DeclarationsGiveMeaning};
ghost use Rattle.term_model.specs.LawsDeclarations.{DeclarationsGiveVerdicts};
ghost use Rattle.term_model.specs.LawsDates.{TextsOfDaysAreUnique, DaysOfTextsAreCivil};

/// What one party pays, the other receives.
pub fn amounts_are_opposite()
    ensures { AmountsAreOpposite }
{}

/// Nothing is paid on any day from the horizon on.
pub fn amounts_end_at_horizon()
    ensures { AmountsEndAtHorizon }
{}

/// Nothing is paid before the day on which a contract stands.
pub fn amounts_begin_at_zero()
    ensures { AmountsBeginAtZero }
{}

/// What is paid is paid at the latest on the day of the reach.
pub fn horizon_is_within_reach()
    ensures { HorizonIsWithinReach }
{}

/// A contract carries itself over no days, and a residual of a residual, under more fixings,
/// carries the first contract over all the days.
pub fn carries_composes()
    ensures itself { CarriesItself }
    ensures composes { CarriesComposes }
{}

/// Up to the first place that is not fixed, a contract reads the same places whatever the others
/// will hold.
pub fn reads_stay_up_to_unfixed()
    ensures { ReadsStayUpToUnfixed }
{}

/// And so does an expression, among names of which that holds; where it reads no other place, its
/// value is known.
pub fn values_are_fixed()
    ensures reads { ExpressionReadsStay }
    ensures value { ValuesAreFixed }
{}

/// Over more days a contract reads no less.
pub fn reads_grow()
    ensures { ReadsGrow }
{}

/// Where everything that is read up to a day is fixed, the amounts up to it are known.
pub fn amounts_are_fixed()
    ensures { AmountsAreFixed }
{}

/// A place that an expression does not read has no influence on its value.
pub fn values_depend_on_reads()
    ensures { ValuesDependOnReads }
{}

/// A place that a contract does not read up to a day has no influence on the amounts up to it.
pub fn amounts_depend_on_reads()
    ensures { AmountsDependOnReads }
{}

/// An expression whose observables are read some days later has the value of that many days later.
pub fn shifts_move_the_day()
    ensures { ShiftsMoveTheDay }
{}

/// And it reads the places that the expression reads that many days later.
pub fn reads_move_the_day()
    ensures { ReadsMoveTheDay }
{}

/// A contract has at most one refusal.
pub fn refusals_are_unique()
    ensures { RefusalsAreUnique }
{}

/// An accepted contract has no refusal.
pub fn accepted_are_not_refused()
    ensures { AcceptedAreNotRefused }
{}

/// A rule of acceptance that holds everywhere in a contract fails nowhere, and where it fails, it
/// does so first at one node. So the answers of the calls for the rules are the only ones that fit.
pub fn faults_are_unique()
    ensures apart { RulesHoldOrFail }
    ensures unique { FaultsAreUnique }
{}

/// A day has one text.
pub fn texts_of_days_are_unique()
    ensures { TextsOfDaysAreUnique }
{}

/// A text that has a day names one of the years 0001 to 9999, so each day that is read can be
/// written.
pub fn days_of_texts_are_civil()
    ensures { DaysOfTextsAreCivil }
{}

/// Each day count of an instance is a number.
pub fn instances_have_numbers()
    ensures { InstancesHaveNumbers }
{}

/// An instance of a well-formed contract is well formed.
pub fn instances_are_well_formed()
    ensures { InstancesAreWellFormed }
{}

/// A setting with a number for each template suits every well-formed contract.
pub fn settings_suit()
    ensures { SettingsSuit }
{}

/// The defaults are a number for each template.
pub fn defaults_suit()
    ensures { DefaultsSuit }
{}

/// Each node has a type exactly where the closed contract has one.
pub fn times_mean_typed()
    ensures { TimesMeanTyped }
{}

/// An expression that has a kind has a value of it.
pub fn values_have_kinds()
    ensures { ValuesHaveKinds }
{}

/// What a curve answers at an offset is a factor.
pub fn curves_answer_factors()
    ensures { CurvesAnswerFactors }
{}

/// What an accepted contract pays in an asset is a whole number at the asset's decimals.
pub fn amounts_are_multiples()
    ensures { AmountsAreMultiples }
{}

/// A contract whose scale, as a whole and in each asset, is no greater than another's keeps the
/// rule on scales, and so do wholes that differ in such parts.
pub fn scales_are_kept()
    ensures payments { AssetsAreScaledByPayments }
    ensures kept { ScalesAreKept }
{}

/// What is accepted is accepted where each asset has the decimals of the amounts, as it has in
/// version 1.
pub fn accepted_at_one_scale()
    ensures decides { OneScaleDecides }
    ensures accepted { AcceptedAtOneScale }
    ensures closed { ClosedAtOneScale }
{}

/// What a term means follows from the decimals of the amounts and from the observables alone, and
/// whether it is accepted from these and the decimals of assets; so it is the same under
/// declarations that differ in names, templates or days.
pub fn declarations_give_meaning()
    ensures meaning { DeclarationsGiveMeaning }
    ensures verdict { DeclarationsGiveVerdicts }
    ensures forms { DeclarationsGiveForms }
{}
