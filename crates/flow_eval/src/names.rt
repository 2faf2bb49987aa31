//! How many names a walk over a contract holds at once.

ghost use Rattle.std.specs.Prelude.{◌≡◌, ◌≤◌};
ghost use Rattle.term_model.specs.Limits.{most_height};
ghost use Rattle.term_model.specs.Terms.{contract};
ghost use Rattle.flow_eval.specs.Readiness.{names_in};

use term_model::Contr;

/// How many names are bound round the part of a contract that has the most of them. Most contracts
/// bind none, and a walk over these needs no memory for names. Expressions are not looked into.
pub fn names_in(c: &Contr) -> u32
    requires { names_in (contract c.now) ≤ most_height }
    ensures { result ≡ names_in (contract c.now) }
{
    match c {
        Contr::Zero | Contr::Pay { .. } => 0,
        Contr::Scale { body, .. } => names_in(body),
        Contr::After { body, .. } => names_in(body),
        Contr::Let { body, .. } => names_in(body) + 1,
        Contr::Both { left, right } => names_in(left).max(names_in(right)),
        Contr::Within { hit, miss, .. } => names_in(hit).max(names_in(miss)),
    }
}
