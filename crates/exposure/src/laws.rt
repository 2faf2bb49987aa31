//! What follows of the definitions. Each law is the contract of a function that does nothing; a
//! caller takes the law by calling it.

ghost use Rattle.exposure.specs.Renaming.{AcceptanceStays, AmountsAreRenamed, EachHasSources};
ghost use Rattle.exposure.specs.Renaming.{FlowsAreRenamed, FormStays, LiteralsStay, ReadsAreKept};
ghost use Rattle.exposure.specs.Renaming.{RedexesAreKept, ResidualsAreRenamed, SizesAreKept};
ghost use Rattle.exposure.specs.LawsAnswers.{PositionsAreOne, SettlementsAreOne};
ghost use Rattle.exposure.specs.LawsTables.{ManyTablesAddUp, NetsAddUpToNoMore};
ghost use Rattle.exposure.specs.LawsTables.{NetsLeavePositions, PositionsAreWhole};
ghost use Rattle.exposure.specs.LawsTables.{PositionsAreWithin, PositionsStandInTime};
ghost use Rattle.exposure.specs.LawsTables.{SettledAreWhole, SettledAreWithin};
ghost use Rattle.exposure.specs.LawsTables.{SettledStandInTime, TablesAddUp};

/// A renamed contract is accepted exactly where the contract is, with the same facts; it reads
/// nothing more, has the same literals, and no redex comes or goes.
pub fn renaming_keeps_rules()
    ensures acceptance { AcceptanceStays }
    ensures sizes { SizesAreKept }
    ensures reads { ReadsAreKept }
    ensures literals { LiteralsStay }
    ensures form { FormStays }
    ensures redexes { RedexesAreKept }
{}

/// Between two parties a renamed contract pays what the contract pays between all that stand for
/// them.
pub fn renamed_contracts_pay_as_renamed()
    ensures sources { EachHasSources }
    ensures flows { FlowsAreRenamed }
    ensures amounts { AmountsAreRenamed }
    ensures residuals { ResidualsAreRenamed }
{}

/// The flow tables of accepted contracts can be taken together.
pub fn accepted_tables_add_up()
    ensures one { TablesAddUp }
    ensures many { ManyTablesAddUp }
{}

/// The net of flow tables can stand for them: it leaves each account where they do.
pub fn nets_leave_positions()
    ensures positions { NetsLeavePositions }
    ensures sizes { NetsAddUpToNoMore }
{}

/// Positions, and payments that settle them, stand on the days of the tables, and none is more than
/// the tables add up to. Where the amounts of the tables are whole numbers at the decimals of their
/// assets, so are theirs.
pub fn settlement_keeps_within_tables()
    ensures days { PositionsStandInTime }
    ensures settled_days { SettledStandInTime }
    ensures amounts { PositionsAreWithin }
    ensures settled_amounts { SettledAreWithin }
    ensures whole { PositionsAreWhole }
    ensures settled_whole { SettledAreWhole }
{}

/// Tables have one list of positions, and one settlement in turn.
pub fn one_settlement()
    ensures positions { PositionsAreOne }
    ensures settlements { SettlementsAreOne }
{}
