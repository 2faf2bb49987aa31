//! Laws of the texts of payoff code. Each is the contract of a function that does nothing; a
//! caller takes the law by calling it.

ghost use Rattle.payoff_lang.specs.LawsReading.{CodeFaultsEndFronts, CodeFitsText, CodeOfTextIsClosed, CodeOfTextIsPrintable, CodeTextHasNoFault, CodeTextIsTaken, CodeTextsAreWhole, NamesOfCodeFitText, OneCodeReading, TemplatesOfCodeAreShort};
ghost use Rattle.payoff_lang.specs.LawsTexts.{CodeCanonExists, CodeCanonIsText, CodeIsSpelled, OneCanonOfCode, ValuesAreWrittenAsExpressions};

/// The laws of what code is, is worth and means.
pub use payoff_terms::laws::{
    code_is_well_formed, code_means, code_values_are_fixed, cut_means, printable_is_writable,
};

/// A value expression is written as the expression that it is with its dates in a list, but for the
/// leaf.
pub fn values_are_written_as_expressions()
    ensures { ValuesAreWrittenAsExpressions }
{}

/// A code file whose declarations are within the limits of texts has a canonical text.
pub fn code_canon_exists()
    ensures { CodeCanonExists }
{}

/// A code file has at most one canonical text.
pub fn one_canon_of_code()
    ensures { OneCanonOfCode }
{}

/// The canonical text of code spells it wherever a comma, a bracket, a space or a semicolon
/// follows.
pub fn code_is_spelled()
    ensures { CodeIsSpelled }
{}

/// The canonical text of a code file within the limits of texts is a text of it.
pub fn code_canon_is_text()
    ensures { CodeCanonIsText }
{}

/// A text of a code file is taken from its first token to its end.
pub fn code_text_is_taken()
    ensures { CodeTextIsTaken }
{}

/// A text of a code file has no fault.
pub fn code_text_has_no_fault()
    ensures { CodeTextHasNoFault }
{}

/// A fault of bytes that are UTF-8 stands at a token behind a front, and is of Syntax exactly where
/// with that token there is none.
pub fn code_faults_end_fronts()
    ensures { CodeFaultsEndFronts }
{}

/// The tokens of a text of a code file are whole by the forms of its grammar.
pub fn code_texts_are_whole()
    ensures { CodeTextsAreWhole }
{}

/// One text stands for at most one code file.
pub fn one_code_reading()
    ensures { OneCodeReading }
{}

/// The code of a text names only what is declared or bound round it, and at most 400 terms are open
/// at once.
pub fn code_of_text_is_closed()
    ensures { CodeOfTextIsClosed }
{}

/// The code of a text has numbers within the limits of texts, so that it may be printed.
pub fn code_of_text_is_printable()
    ensures { CodeOfTextIsPrintable }
{}

/// The code of a text has fewer nodes than the text has bytes.
pub fn code_fits_text()
    ensures { CodeFitsText }
{}

/// Each set of names that the text of a code file declares has at most as many names as the text
/// has bytes.
pub fn names_of_code_fit_text()
    ensures { NamesOfCodeFitText }
{}

/// The templates that the text of a code file declares have at most 100,000 days.
pub fn templates_of_code_are_short()
    ensures { TemplatesOfCodeAreShort }
{}
