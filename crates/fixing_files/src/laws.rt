//! What a table says is never in doubt. Each law is the contract of a function that does nothing; a
//! caller takes the law by calling it.

ghost use Rattle.fixing_files.specs.Laws.{FaultsAreUnique, FaultyTablesHoldNothing, MantissasAreWritten, TablesHoldOneMap};
ghost use Rattle.fixing_files.specs.LawsCurves.{CurveFaultsAreUnique, CurveTablesAreAnswered, FaultyTablesHoldNoCurve, TablesHoldOneCurve};

/// A table of fixings has one answer: at most one record is the first that breaks a rule, and for
/// one rule; a table that has such a record holds no fixings; and all fixings that a table holds
/// have the same value at each place.
pub fn tables_have_one_answer()
    ensures faults { FaultsAreUnique }
    ensures either { FaultyTablesHoldNothing }
    ensures fixings { TablesHoldOneMap }
{}

/// A field has a mantissa at a label's scale exactly where it is the text of a decimal with no more
/// decimals than that, and the mantissa at the scale is at most `10^37` in size.
pub fn mantissas_are_written()
    ensures { MantissasAreWritten }
{}

/// A table of discount factors has one answer: it holds a curve, or a record is the first that
/// breaks a rule; not both; and there is one such record, for one rule, or one such curve.
pub fn curves_have_one_answer()
    ensures answered { CurveTablesAreAnswered }
    ensures faults { CurveFaultsAreUnique }
    ensures either { FaultyTablesHoldNoCurve }
    ensures curves { TablesHoldOneCurve }
{}
