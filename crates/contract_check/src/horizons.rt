//! How long a contract can pay.

ghost use Rattle.std.specs.Prelude.{◌≡◌, ◌+◌, ◌≤◌, ◌<◌, ◌^◌};
ghost use Rattle.term_model.specs.Terms.{contract};
ghost use Rattle.term_model.specs.Limits.{most_days};
ghost use Rattle.term_model.specs.Sizes.{reach};
ghost use Rattle.term_model.specs.Horizons.{delayed, horizon_of};
ghost use Rattle.contract_check.specs.Smallness.{MeetsSize};

use term_model::Contr;

/// A horizon some days later; what pays nothing pays nothing later either.
pub fn delayed_by(days: u32, horizon: u32) -> u32
    requires { days + horizon < 2 ^ 32 }
    ensures { result ≡ delayed days horizon }
{
    if horizon == 0 { 0 } else { days + horizon }
}

// The horizon of a contract that reaches no further than the limit.
#[tactic(auto, using(crate::proofs::HorizonFacts::horizon_most))]
fn horizon_in(c: &Contr) -> u32
    requires { reach (contract c.now) ≤ most_days }
    ensures { result ≡ horizon_of (contract c.now) }
{
    match c {
        Contr::Zero => 0,
        Contr::Pay { .. } => 1,
        Contr::Both { left, right } => horizon_in(left).max(horizon_in(right)),
        Contr::Scale { body, .. } | Contr::Let { body, .. } => horizon_in(body),
        Contr::After { days, body } => delayed_by(days.number(), horizon_in(body)),
        Contr::Within {
            days,
            hit,
            miss,
            ..
        } => delayed_by(days.number(), horizon_in(hit).max(horizon_in(miss))),
    }
}

/// The number of days, from the one on which a contract stands, after which it pays nothing more,
/// whatever is observed; 0 where it pays nothing at all. A contract that pays on its first day
/// alone has 1. It takes no memory.
#[tactic(auto, using(crate::proofs::HorizonFacts::reach_limited))]
pub fn horizon(c: &Contr) -> u32
    requires small { MeetsSize (contract c.now) }
    ensures { result ≡ horizon_of (contract c.now) }
{
    horizon_in(c)
}
