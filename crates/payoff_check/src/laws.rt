//! Laws of verdicts on payoff code. Each is a clause of a function that does nothing; a caller
//! takes the law by calling it.

ghost use Rattle.payoff_check.specs.CodeLaws.{AcceptedCodeIsNotRefused, CodeIsAcceptedOrRefused};
ghost use Rattle.payoff_check.specs.CodeLaws.{CodeAnswersAreUnique, CodeRefusalsAreUnique};

/// At a setting, code is accepted or has a refusal, never both, and at most one refusal. So, but
/// for want of memory, it has one answer of `check_code`.
pub fn code_has_one_verdict()
    ensures decided { CodeIsAcceptedOrRefused }
    ensures apart { AcceptedCodeIsNotRefused }
    ensures refusals { CodeRefusalsAreUnique }
    ensures answers { CodeAnswersAreUnique }
{}
