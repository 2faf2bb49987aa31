//! Laws over the definitions of canonical texts: each function's contract is the law.
ghost use Rattle.contract_print.specs.Laws.{CanonExists, CanonIsText, CommentsChangeNothing, ContractIsSpelled, ExpressionIsSpelled, OneCanon};
ghost use Rattle.contract_print.specs.Migrated.{MigratedAreSpellable};
ghost use Rattle.contract_print.specs.Laws.{OneScaleIsSpellable, RestsAreAccepted, RestsAreSpellable, RestsCanBeSpelled, RestsCanBeWritten, TextsAreSpellable, TextsAreWritable};

/// The canonical text of an expression spells it wherever a comma, a bracket, a space or a
/// semicolon follows.
pub fn expression_is_spelled()
    ensures { ExpressionIsSpelled }
{}

/// The canonical text of a contract spells it wherever a comma, a bracket, a space or a semicolon
/// follows.
pub fn contract_is_spelled()
    ensures { ContractIsSpelled }
{}

/// The canonical text of a portfolio within the limits of texts is a text of it.
pub fn canon_is_text()
    ensures { CanonIsText }
{}

/// A portfolio within the limits of texts has a canonical text.
pub fn canon_exists()
    ensures { CanonExists }
{}

/// A portfolio has at most one canonical text.
pub fn one_canon()
    ensures { OneCanon }
{}

/// The contracts of a text that was read may be printed.
pub fn texts_are_writable()
    ensures { TextsAreWritable }
{}

/// The portfolio of a text is within the limits of texts, so it has a canonical text, which is a
/// text of it.
pub fn texts_are_spellable()
    ensures { TextsAreSpellable }
{}

/// A portfolio within the limits of texts is within them in version 2 too, so it has a canonical
/// text there.
pub fn migrated_are_spellable()
    ensures { MigratedAreSpellable }
{}

/// Declarations within the limits of texts are within them in version 1, where each asset has the
/// decimals of the amounts, as those of code have.
pub fn one_scale_is_spellable()
    ensures { OneScaleIsSpellable }
{}

/// Comment lines before a text change nothing of what it stands for.
pub fn comments_change_nothing()
    ensures { CommentsChangeNothing }
{}

/// An accepted and closed contract whose literals are within the limits of texts can be spelled,
/// and so printed: acceptance keeps its other numbers and its height within these limits.
pub fn rests_can_be_printed()
    ensures spelled { RestsCanBeSpelled }
    ensures written { RestsCanBeWritten }
{}

/// What is left on a later day of a portfolio within the limits of texts is within them too, so it
/// has a canonical text, which is a text of it; and its contracts are accepted under its own
/// declarations.
pub fn rests_are_portfolios()
    ensures spellable { RestsAreSpellable }
    ensures accepted { RestsAreAccepted }
{}
