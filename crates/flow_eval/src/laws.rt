//! Laws of flow tables. Each is the contract of a function that does nothing; a caller takes it by
//! calling it.

ghost use Rattle.flow_eval.specs.Tables.{TablesAreOne};
ghost use Rattle.flow_eval.specs.FlowAnswers.{AnswersAreOne};

/// What is paid has one flow table: of two lists of rows that are its table, each is the other.
pub fn one_table()
    ensures { TablesAreOne }
{}

/// But for want of memory, the flows of a contract over fixings have one answer: the rows of one
/// table, or one missing place.
pub fn one_answer()
    ensures { AnswersAreOne }
{}
