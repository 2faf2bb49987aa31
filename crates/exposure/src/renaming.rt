//! A party in the place of another.

ghost use Rattle.std.specs.Prelude.{◌≡◌, IfOk};
ghost use Rattle.term_model.specs.Terms.{contract};
ghost use Rattle.exposure.specs.Renaming.{renamed, renamed_party};

use decimal::NoMemory;
use std::alloc::Global;
use term_model::Contr;

// The party that stands in the place of one.
fn renamed_party(old: u32, new: u32, party: u32) -> u32
    ensures { result ≡ renamed_party old new party }
{
    if party == old { new } else { party }
}

/// The contract with the party `new` in the place of `old` in every transfer. Names of templates
/// and sums of days stay as they are.
pub fn rename(alloc: Global, c: &Contr, old: u32, new: u32) -> Result<Contr, NoMemory>
    ensures { IfOk result (λ r. contract r ≡ renamed old new (contract c.now)) }
{
    match c {
        Contr::Zero => Ok(Contr::Zero),
        Contr::Pay { asset, from, to } => Ok(Contr::Pay {
            asset: *asset,
            from: renamed_party(old, new, *from),
            to: renamed_party(old, new, *to),
        }),
        Contr::Both { left, right } => {
            let left = Box::new(alloc, rename(alloc, left, old, new)?)?;
            let right = Box::new(alloc, rename(alloc, right, old, new)?)?;
            Ok(Contr::Both { left, right })
        }
        Contr::Scale { factor, body } => {
            let factor = factor.copy(alloc)?;
            let body = Box::new(alloc, rename(alloc, body, old, new)?)?;
            Ok(Contr::Scale { factor, body })
        }
        Contr::After { days, body } => {
            let days = days.copy(alloc)?;
            let body = Box::new(alloc, rename(alloc, body, old, new)?)?;
            Ok(Contr::After { days, body })
        }
        Contr::Let { bound, body } => {
            let bound = bound.copy(alloc)?;
            let body = Box::new(alloc, rename(alloc, body, old, new)?)?;
            Ok(Contr::Let { bound, body })
        }
        Contr::Within {
            test,
            days,
            hit,
            miss,
        } => {
            let test = test.copy(alloc)?;
            let days = days.copy(alloc)?;
            let hit = Box::new(alloc, rename(alloc, hit, old, new)?)?;
            let miss = Box::new(alloc, rename(alloc, miss, old, new)?)?;
            Ok(Contr::Within {
                test,
                days,
                hit,
                miss,
            })
        }
    }
}
