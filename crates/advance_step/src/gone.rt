//! Contracts that lie behind.

ghost use Rattle.std.specs.Prelude.{◌≡◌, ◌<◌, true};
ghost use Rattle.term_model.specs.Terms.{contract};
ghost use Rattle.term_model.specs.Sizes.{reach};

use term_model::Contr;

/// Whether each part of a contract stands on one of the next `days` days, whatever its tests come
/// to. It looks no further than to the first part that stands later.
pub fn is_gone(c: &Contr, days: u32) -> bool
    ensures { result ≡ true → reach (contract c.now) < days }
{
    match c {
        Contr::Zero | Contr::Pay { .. } => 0 < days,
        Contr::Both { left, right } => is_gone(left, days) && is_gone(right, days),
        Contr::Scale { body, .. } => is_gone(body, days),
        Contr::After { days: wait, body } => {
            let wait = wait.number();
            wait < days && is_gone(body, days - wait)
        }
        Contr::Let { body, .. } => is_gone(body, days),
        Contr::Within {
            days: wait,
            hit,
            miss,
            ..
        } => {
            let wait = wait.number();
            wait < days && is_gone(hit, days - wait) && is_gone(miss, days - wait)
        }
    }
}
