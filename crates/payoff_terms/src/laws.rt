//! Laws of payoff code. Each is the contract of a function that does nothing; a caller takes the
//! law by calling it.

ghost use Rattle.payoff_terms.specs.LawsCode.{CompiledCodeMeans, CutCodeMeans, CodeIsWellFormed, CodeValuesAreFixed, PrintableIsWritable};

/// The code of a contract means it: at every setting at which the contract is accepted, in every
/// admitted environment, on every day, for every pair of parties and asset, its value is the sum of
/// the contract's discounted amounts.
pub fn code_means()
    ensures { CompiledCodeMeans }
{}

/// And so does its cut code, which counts the amounts that are left to be paid.
pub fn cut_means()
    ensures { CutCodeMeans }
{}

/// The code of a closed contract is closed, and its dates have their templates in order; so has its
/// cut code.
pub fn code_is_well_formed()
    ensures { CodeIsWellFormed }
{}

/// Where each place that code reads is fixed, its value is that of the fixings, whatever else is
/// observed.
pub fn code_values_are_fixed()
    ensures { CodeValuesAreFixed }
{}

/// Code that a text can stand for may be printed.
pub fn printable_is_writable()
    ensures { PrintableIsWritable }
{}
