//! Laws of the code of contracts. Each is the contract of a function that does nothing; a caller
//! takes the law by calling it.

ghost use Rattle.payoff_compile.specs.LawsCompiled.{CodeIsAccepted, CodeIsPlain, CutCodeCountsTheRest, PlainCodeIsWritable, SizesAreCarried, TotalsAreCarried, WritableTermsHaveSmallLiterals};

/// The total of a contract's code is at most that of the contract, times the greatest factor.
pub fn totals_are_carried()
    ensures { TotalsAreCarried }
{}

/// A contract's code is no larger than the contract, at any setting, and its cut code little
/// larger.
pub fn sizes_are_carried()
    ensures { SizesAreCarried }
{}

/// A contract's code and its cut code are accepted at every setting at which the contract is.
pub fn code_is_accepted()
    ensures { CodeIsAccepted }
{}

/// What the compiler promises of its answer holds of the code of each closed contract that is
/// accepted at the defaults.
pub fn code_is_plain()
    ensures { CodeIsPlain }
{}

/// Cut code counts what is left to be paid.
pub fn cut_code_counts_the_rest()
    ensures { CutCodeCountsTheRest }
{}

/// What the compiler answers may be printed, and its cut too, where the literals of the contract
/// are small.
pub fn plain_code_is_writable()
    ensures { PlainCodeIsWritable }
{}

/// The literals of a contract that may be printed are small.
pub fn writable_terms_have_small_literals()
    ensures { WritableTermsHaveSmallLiterals }
{}
