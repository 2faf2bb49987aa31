//! Laws over what texts are: each function's contract is the law.
ghost use Rattle.contract_grammar.specs.TextLaws.{AssetsHaveDecimals, ContractsAreClosed, ContractsFitText, NamesFitText, NodesFitText, PaymentsAreBounded, PaymentsFitText, TextsHaveCounts, TextsHaveSmallSums, TextsHaveVersions};

/// Each asset that is spelled has at most the decimals of the amounts, and in version 1 just as
/// many.
pub fn assets_have_decimals()
    ensures { AssetsHaveDecimals }
{}

/// A text of a portfolio is one of version 1 or 2.
pub fn texts_have_versions()
    ensures { TextsHaveVersions }
{}

/// A text has at most as many contracts as bytes.
pub fn contracts_fit_text()
    ensures { ContractsFitText }
{}

/// The contracts of a text have together at most as many nodes as the text has bytes.
pub fn nodes_fit_text()
    ensures { NodesFitText }
{}

/// A contract of a text names only what is declared or bound round it, and at most 200 terms are
/// open at once.
pub fn contracts_are_closed()
    ensures { ContractsAreClosed }
{}

/// The sums of a text are within the limits of sums.
pub fn texts_have_small_sums()
    ensures { TextsHaveSmallSums }
{}

/// A sum of a text stands under version 2, is just what its items make, and is no number and no
/// name.
pub fn texts_have_counts()
    ensures { TextsHaveCounts }
{}

/// Each set of names that a text declares has at most as many names as the text has bytes.
pub fn names_fit_text()
    ensures { NamesFitText }
{}

/// A contract of a text holds at most a payment for each 17 bytes, but for the first, which takes
/// 10.
pub fn payments_fit_text()
    ensures { PaymentsFitText }
{}

/// A contract of a text of at most 16 MiB holds fewer than a million payments.
pub fn payments_are_bounded()
    ensures { PaymentsAreBounded }
{}
