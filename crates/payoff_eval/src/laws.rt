//! Laws of the values of code. Each is the contract of a function that does nothing; a caller takes
//! it by calling it.

ghost use Rattle.payoff_eval.specs.LawsValues.{ValuesAreWithinTotals};

/// What accepted code is worth is at most its total in size, whatever is observed, on every day and
/// by every curve.
pub fn values_are_within_totals()
    ensures { ValuesAreWithinTotals }
{}
