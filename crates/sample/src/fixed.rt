//! The fixings of the sample.

ghost use Rattle.std.specs.Prelude.{◌≡◌, ◌<◌, ◌+◌, pos, IfOk, OnOk};
ghost use Rattle.term_model.specs.Declarations.{declarations};
ghost use Rattle.term_model.specs.Environments.{IsAdmitted};
ghost use Rattle.sample.specs.Sample.{HoldSame, fixings_before, sample_declarations, sample_factor, sample_fixings};

use decimal::NoMemory;
use fixing_files::Fixings;
use std::alloc::Global;
use term_model::{Decls, Value};

// The mantissa of FX on a day.
fn factor(day: u32) -> i128
    requires { day < 100 }
    ensures { result ≡ pos (sample_factor day) }
{
    let mantissa = 8_000 + (7 * day * day + 13 * day) % 8_001;
    mantissa as i128
}

// Fixes FX on a day, where it is fixed on those before.
fn fix(fixings: &mut Fixings, decls: &Decls, day: u32) -> Result<(), NoMemory>
    requires declared { declarations decls.now ≡ sample_declarations }
    requires day { day < 100 }
    requires before { HoldSame fixings.old (fixings_before day) }
    requires admitted { IsAdmitted sample_declarations fixings.old }
    ensures after { OnOk result (HoldSame fixings.new (fixings_before (day + 1))) }
    ensures admitted { OnOk result (IsAdmitted sample_declarations fixings.new) }
{
    let value = Value::Num { mant: factor(day) };
    fixings.put(decls, 0, day as i64, value)
}

/// The fixings of the sample: FX on the days 0 to 99.
pub fn sample_fixings(alloc: Global, decls: &Decls) -> Result<Fixings, NoMemory>
    requires { declarations decls.now ≡ sample_declarations }
    ensures same { IfOk result (λ fixings. HoldSame fixings sample_fixings) }
    ensures admitted { IfOk result (λ fixings. IsAdmitted sample_declarations fixings) }
{
    let mut fixings = Fixings::none(alloc);
    for day in 0..100u32 {
        fix(&mut fixings, decls, day)?;
    }
    Ok(fixings)
}
