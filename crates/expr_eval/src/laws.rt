//! What follows of entries from the definitions. Each law is the contract of a function that does
//! nothing; a caller takes it by calling it.

ghost use Rattle.expr_eval.specs.LawsEntries.{NoneStandForNone, EnteredStandFor, EnteredSuit, AcceptedMayEvaluate, PartsOfPartsMayEvaluate};

/// An entry that is made of the answer for the expression of a `let`, put before the others, suits
/// the body of the `let`, and stands for the values and the places of the names in it. Where there
/// are no names, no entries stand for them.
pub fn answers_may_be_entered()
    ensures none { NoneStandForNone }
    ensures stand { EnteredStandFor }
    ensures suit { EnteredSuit }
{}

/// The expressions and the contracts that stand directly in an accepted contract may be evaluated,
/// and so on down to the last: the body of a `let` with one entry more, that is made of the answer
/// for its expression.
pub fn parts_may_be_evaluated()
    ensures whole { AcceptedMayEvaluate }
    ensures parts { PartsOfPartsMayEvaluate }
{}
