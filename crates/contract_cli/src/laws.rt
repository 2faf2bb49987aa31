//! Laws of what runs answer: their statuses, and the texts that they print. Each is the contract of
//! a function that does nothing.

ghost use Rattle.command_answers.specs.AnswerLaws.{AnswersAreOne, SummariesAreOne};
ghost use Rattle.valuation_commands.specs.LawsNames.{DeclaredNamesHavePlaces};
ghost use Rattle.lifecycle_commands.specs.LawsDueLines.{DueLinesAreOne, DueLinesOfNovateAreOne};
ghost use Rattle.flow_commands.specs.DueOfFlows.{DueOfFlows};
ghost use Rattle.flow_commands.specs.DueOfNetting.{DueOfPositions, DueOfSettlements};
ghost use Rattle.valuation_commands.specs.DueOfScenarios.{DueOfScenarios};
ghost use Rattle.valuation_commands.specs.DueOfValue.{DueOfValue};
ghost use Rattle.contract_cli.specs.AdvanceLaws.{AdvanceTextsAreTexts, AdvancesCompose};
ghost use Rattle.contract_cli.specs.DueOfLifecycle.{DueOfAdvance, DueOfNovate};
ghost use Rattle.contract_cli.specs.DueOfTexts.{DueOfCheck, DueOfExpand, DueOfMigrate, DueOfPayoff};
ghost use Rattle.contract_cli.specs.ExpandLaws.{ExpandedPlansAreListed, ExpandedTextsAreAccepted, ExpandedTextsAreTexts};
ghost use Rattle.contract_cli.specs.MigratedRuns.{MigratedTextsAdvance, MigratedTextsAreChecked, MigratedTextsAreListed};
ghost use Rattle.contract_cli.specs.NettingLaws.{PrintedPositionsBalance, PrintedSettlementsSettle, SettlementsSettlePositions};
ghost use Rattle.contract_cli.specs.NovateLaws.{NovateTextsAreTexts};
ghost use Rattle.contract_cli.specs.NovateRuns.{NovatedTextsAdvance, NovatedTextsAreAccepted, NovatedTextsAreListed};
ghost use Rattle.contract_cli.specs.PayoffLaws.{PayoffTextsMean};
ghost use Rattle.contract_cli.specs.RunLaws.{AnswersHaveCauses, DoneHasTold, ReadFaultsHaveCauses, RunIsComplete, StatusesAreExact, StatusesOverFilesAreExact, TooLongComes, TooLongHasACause, UsageIsExact, UsageWritesItsLine, WriteFaultsHaveCauses};
ghost use Rattle.contract_cli.specs.SampleLaws.{SampleHasThreeEnds};
ghost use Rattle.contract_cli.specs.TwoRuns.{AdvancedTextsAdvance, AdvancedTextsAreAccepted, MigratedSayTheSame, MigratedStay, MigratedTextsAreTexts, PrintedCodeIsTaken, PrintedCodeIsTakenByScenarios, PrintedCodeIsTotalled, PrintedCodeIsValued};

/// Each status but out of memory comes exactly where it is due, or memory is wanting: that of the
/// first stage of the run that passes nothing, or that of the end; and with it the text of the
/// course is written. So of the whole run, where the files that it reads are told; and of the
/// command over the bytes of files that are told and not too long.
pub fn statuses_are_exact()
    ensures run { StatusesAreExact }
    ensures files { StatusesOverFilesAreExact }
{}

/// A run that each stage passes has written the whole text of its command, or wants memory; and one
/// that is done has read its files and told its text.
pub fn run_is_complete()
    ensures complete { RunIsComplete }
    ensures done { DoneHasTold }
{}

/// What answers a run has a cause: words of no form, a file that was not read, or what the command
/// answers to the bytes of its files.
pub fn answers_have_causes()
    ensures { AnswersHaveCauses }
{}

/// Usage comes exactly where the words are of no form, or memory is wanting, or the write of its
/// line fails; and it has just that line.
pub fn usage_is_exact()
    ensures exact { UsageIsExact }
    ensures line { UsageWritesItsLine }
{}

/// A read fault comes only where the count of a named file rose, whose place its line has; a write
/// fault only where the count of the sink rose.
pub fn faults_have_causes()
    ensures reads { ReadFaultsHaveCauses }
    ensures writes { WriteFaultsHaveCauses }
{}

/// A file is too long only where it has more bytes than the limit; and the first that has is, with
/// its place in the line, whatever is true of the files behind it.
pub fn too_long_is_exact()
    ensures only { TooLongHasACause }
    ensures comes { TooLongComes }
{}

/// What the law of statuses says of each command, status by status: where the cause of a status
/// stands it is due, and what stops the command has its cause. `positions` and `settle` have the
/// causes that `flows` of all contracts has; and `novate`, behind its names, those of `advance`.
/// `sample` is stopped by nothing.
pub fn causes_are_due()
    ensures check { DueOfCheck }
    ensures flows { DueOfFlows }
    ensures value { DueOfValue }
    ensures positions { DueOfPositions }
    ensures settlements { DueOfSettlements }
    ensures scenarios { DueOfScenarios }
    ensures advance { DueOfAdvance }
    ensures novate { DueOfNovate }
    ensures payoff { DueOfPayoff }
    ensures migrate { DueOfMigrate }
    ensures expand { DueOfExpand }
{}

/// The bytes of the files of a command have one answer, a status and a text. Two texts of `advance`,
/// or of `novate`, have the same due lines. The sample of a number of contracts has one summary.
pub fn answers_are_one()
    ensures files { AnswersAreOne }
    ensures due { DueLinesAreOne }
    ensures due_of_novate { DueLinesOfNovateAreOne }
    ensures sample { SummariesAreOne }
{}

/// Two runs compose: what is left on a day of what was left on an earlier one, under more fixings,
/// carries the first contracts to that day.
pub fn advances_compose()
    ensures { AdvancesCompose }
{}

/// What `advance` prints of the portfolio of a text is itself a text: that of what is left of the
/// portfolio on the new day, in which no contract is refused.
pub fn advance_texts_are_texts()
    ensures { AdvanceTextsAreTexts }
{}

/// What `novate` prints of the portfolio of a text is itself a text: that of what is left of the
/// portfolio on the new day, with the new party in the named contract. No contract of it is
/// refused. The named contract pays between two parties what the first one pays between all that
/// the renaming takes to them; every other contract carries the first one.
pub fn novate_texts_are_texts()
    ensures { NovateTextsAreTexts }
{}

/// What `payoff` prints of a contract of a portfolio's text is a text of a code file on the
/// portfolio's declarations in version 1, whose code means the contract, is accepted at every
/// setting at which the contract is, and has few nodes.
pub fn payoff_texts_mean()
    ensures { PayoffTextsMean }
{}

/// `sample` ends with its summary written, with a failed write or for want of memory.
pub fn sample_has_three_ends()
    ensures { SampleHasThreeEnds }
{}

/// The parties and the asset of `value`, where all names of the words are declared, have places to
/// be asked for.
pub fn declared_names_have_places()
    ensures { DeclaredNamesHavePlaces }
{}

/// What `payoff` has printed is a text of code for `value`, which does not refuse it at a setting
/// at which the contract is accepted; and the number that `value` prints of it is the contract's
/// present value there, where the code is not plain.
pub fn printed_code_is_valued()
    ensures taken { PrintedCodeIsTaken }
    ensures valued { PrintedCodeIsValued }
{}

/// So for `scenarios`: each value that it prints of what `payoff` has printed is what the contract
/// is worth in that scenario, all of it where the code is plain, and else what is left to pay.
pub fn printed_code_is_totalled()
    ensures taken { PrintedCodeIsTakenByScenarios }
    ensures totalled { PrintedCodeIsTotalled }
{}

/// What `advance` prints of a portfolio that `advance` has printed carries the first contracts to
/// the later day; and `check` accepts each contract of what `advance` has printed.
pub fn advanced_texts_advance()
    ensures carried { AdvancedTextsAdvance }
    ensures accepted { AdvancedTextsAreAccepted }
{}

/// What `migrate` prints is a text of the same portfolio in version 2, which has the same verdicts
/// and flow lines; and what was migrated is migrated to the same bytes.
pub fn migrated_texts_say_the_same()
    ensures texts { MigratedTextsAreTexts }
    ensures same { MigratedSayTheSame }
    ensures stay { MigratedStay }
{}

/// What `check` and `flows` answer to what `migrate` has printed, they answer to the portfolio that
/// was migrated: the same status and the same text, or the line of the same fault. So does
/// `advance`, but that what is left stands in version 2.
pub fn migrated_texts_answer_the_same()
    ensures checked { MigratedTextsAreChecked }
    ensures listed { MigratedTextsAreListed }
    ensures advanced { MigratedTextsAdvance }
{}

/// What `expand` prints of a schedule file is a text of the portfolio of its plans' contracts,
/// which are accepted and pay what the plans say. So `check` accepts it, and what `flows` prints of
/// it are the lines of what the plans pay.
pub fn expanded_plans_pay()
    ensures texts { ExpandedTextsAreTexts }
    ensures accepted { ExpandedTextsAreAccepted }
    ensures listed { ExpandedPlansAreListed }
{}

/// The positions that `positions` prints add up to 0 on each day in each asset. The payments that
/// `settle` prints leave each party where the flows of all contracts leave it, and on each day, in
/// each asset, they are at least one fewer than the parties that come to something. So they bring
/// each party to the position that `positions` prints of the same files, in fewer lines.
pub fn printed_positions_are_settled()
    ensures positions { PrintedPositionsBalance }
    ensures settlements { PrintedSettlementsSettle }
    ensures both { SettlementsSettlePositions }
{}

/// What `novate` has printed `check` accepts. What `flows` prints of it are the later flows of the
/// first contracts, with the new party in the named contract; and what a later `advance` leaves of
/// it stands for the first contracts on the later day.
pub fn novated_texts_stand_for_the_first()
    ensures accepted { NovatedTextsAreAccepted }
    ensures listed { NovatedTextsAreListed }
    ensures advanced { NovatedTextsAdvance }
{}
