//! Laws over the definitions alone. Each is the contract of a function that does nothing.

ghost use Rattle.advance_step.specs.LawsLeft.{LeftScales, LeftFlows, LeftCarries};
ghost use Rattle.advance_step.specs.LawsLeftRules.{NothingIsLeft, ReachIsLess, PastIsMore};
ghost use Rattle.advance_step.specs.LawsLeftRules.{NodesAreNoMore, LeftIsTyped, LeftReplaces};
ghost use Rattle.advance_step.specs.LawsLeftAccepted.{LeftIsWellFormed, LeftIsAccepted};
ghost use Rattle.advance_step.specs.LawsReducing.{ReducingOnce, ReducingEnds, ResidualsHold};
ghost use Rattle.advance_step.specs.LawsAdvancing.{RunsCompose};

/// What is left of a contract after some days pays on later days what the contract pays, at no
/// greater a scale, and so carries it.
#[tactic(none)]
pub fn left_carries()
    ensures scales { LeftScales }
    ensures flows { LeftFlows }
    ensures carries { LeftCarries }
{}

/// What is left of an accepted contract keeps the rules, and is nothing past the reach.
#[tactic(none)]
pub fn left_is_accepted()
    ensures gone { NothingIsLeft }
    ensures reach { ReachIsLess }
    ensures past { PastIsMore }
    ensures nodes { NodesAreNoMore }
    ensures times { LeftIsTyped }
    ensures rules { LeftReplaces }
{}

/// What is left of an accepted contract is accepted.
#[tactic(none)]
pub fn left_contracts_are_accepted()
    ensures well_formed { LeftIsWellFormed }
    ensures accepted { LeftIsAccepted }
{}

/// Specialising and turning, again and again, ends with a reduced contract; and what is left of a
/// contract, reduced, is accepted, carries it, and is nothing past its reach.
#[tactic(none)]
pub fn residuals_hold()
    ensures once { ReducingOnce }
    ensures ends { ReducingEnds }
    ensures residuals { ResidualsHold }
{}

/// A contract that is advanced twice, the second time over more fixings and under the declarations
/// of the new day, is left as one that carries it over all the days, and without redexes on the
/// last.
#[tactic(none)]
pub fn runs_compose()
    ensures { RunsCompose }
{}
