//! Laws that follow from the definitions of the model alone. Each is the contract of a function
//! that does nothing; a caller takes the law by calling it.

ghost use Rattle.time_types.specs.TypingLaws.{TypesOfExpressionsRise, TypesOfContractsFall};

/// What is known on a day is known on each later day, and a contract that transfers nothing before
/// a day transfers nothing before an earlier one; and neither is lost where names are known sooner.
pub fn typing_is_kept()
    ensures expressions { TypesOfExpressionsRise }
    ensures contracts { TypesOfContractsFall }
{}
