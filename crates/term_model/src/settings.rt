//! Settings of templates.

ghost use Rattle.std.specs.Prelude.{◌≡◌, IfOk};
ghost use Rattle.term_model.specs.Declarations.{declarations};
ghost use Rattle.term_model.specs.Instances.{declared_numbers};

use crate::decls::Decls;
use decimal::NoMemory;
use std::alloc::Global;

/// A number of days for each template, in declared order.
#[derive(Debug, PartialEq, Eq, Drop)]
pub struct Setting {
    pub days: Vec<u32>,
}

/// The numbers that the templates are declared with.
pub fn defaults(alloc: Global, decls: &Decls) -> Result<Setting, NoMemory>
    ensures { IfOk result (λ setting. setting.days.items
        ≡ declared_numbers (declarations decls.now)) }
{
    let mut days = Vec::new(alloc);
    for number in decls.templates.values() {
        days.push(*number)?;
    }
    Ok(Setting { days })
}
