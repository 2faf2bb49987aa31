//! What is known of a table of scenarios while it is read.

ghost use Rattle.std.specs.Prelude.{◌≡◌, [], IfOk};
ghost use Rattle.scenario_set.specs.Collecting.{TakesTold};
ghost use Rattle.scenario_set.specs.ScenarioSteps.{told_of};
ghost use Rattle.scenario_set.specs.Watches.{IsUnseen};

use crate::mentions::Mention;
use crate::numbers::own_of;
use crate::records::Saying;
use crate::watches::Watch;
use decimal::NoMemory;
use fixing_files::RowKind;
use indexmap::IndexSet;
use std::alloc::Global;
use term_model::Name;

/// The names of the scenarios, in the order of their first records, and what was said so far.
#[derive(Drop)]
pub struct Draft {
    pub names: IndexSet<Name>,
    pub watch: Watch,
}

impl Draft {
    /// No record yet.
    pub fn new(alloc: Global) -> Draft
        ensures names { result.names.keys ≡ [] }
        ensures seen { IsUnseen result.watch }
    {
        Draft {
            names: IndexSet::new(alloc),
            watch: Watch::new(alloc),
        }
    }

    /// Takes what the record of this number says, or answers that it contradicts an earlier one.
    pub fn take(
        &mut self,
        alloc: Global,
        number: u32,
        saying: Saying,
    ) -> Result<Option<RowKind>, NoMemory>
        ensures { IfOk result
            (λ broken. TakesTold (told_of saying.entry) number self.old self.new broken) }
    {
        let own = own_of(alloc, &mut self.names, saying.scope)?;
        if let Some(row) = self.watch.clash(own, saying.place, saying.value) {
            return Ok(Some(RowKind::Conflict {
                earlier: row.number,
            }));
        }
        let row = Mention {
            number,
            value: saying.value,
        };
        self.watch.take(own, saying.place, row)?;
        Ok(None)
    }
}
