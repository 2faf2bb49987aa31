//! Laws that follow from the definitions of the model alone. Each is the contract of a function
//! that does nothing; a caller takes the law by calling it.

ghost use Rattle.contract_check.specs.CausalityLaws.{TypedAreCausal, TimedAreCausal};
ghost use Rattle.contract_check.specs.CausalityLaws.{AcceptedAreCausal};
ghost use Rattle.contract_check.specs.CheckLaws.{FactsAreUnique, AnswersAreUnique};

/// What a contract pays up to a day is the same in any two environments that agree up to that day,
/// where the contract has a type; so where it meets the rule on times, and where it is accepted.
pub fn contracts_are_causal()
    ensures typed { TypedAreCausal }
    ensures timed { TimedAreCausal }
    ensures accepted { AcceptedAreCausal }
{}

/// A contract has one answer, but for want of memory: it is accepted, with the facts that are true
/// of it, or refused, with the rule and the node that the order of trial names.
pub fn answers_are_unique()
    ensures facts { FactsAreUnique }
    ensures answers { AnswersAreUnique }
{}
