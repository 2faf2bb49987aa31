//! The declarations of a portfolio, with their limits.

ghost use Rattle.std.specs.Prelude.{◌≡◌, ◌≤◌, ◌<◌, ◌^◌, true};
ghost use Rattle.indexmap.specs.IndexMap.{index_map_len};
ghost use Rattle.indexmap.specs.IndexSet.{index_set_len};
ghost use Rattle.term_model.specs.Limits.{are_labels, are_numbers, have_decimals, is_a_version};
ghost use Rattle.term_model.specs.Limits.{is_origin, last_start};

use crate::label::Label;
use crate::name::Name;
use indexmap::{IndexMap, IndexSet};

/// What a portfolio declares: the version of its text, the decimals of its amounts, the epoch day
/// that its day 0 is, the day on which its contracts stand, and the names of parties, assets,
/// observables and templates in their order. An asset has decimals of its own, in version 1 those
/// of the amounts. Its ghost fields keep each number within the limits of the language.
#[derive(Drop)]
pub struct Decls {
    pub version: u8,
    pub amounts: u8,
    pub origin: Option<i64>,
    pub start: u32,
    pub parties: IndexSet<Name>,
    pub assets: IndexMap<Name, u8>,
    pub labels: IndexMap<Name, Label>,
    pub templates: IndexMap<Name, u32>,
    pub ghost version_in: { is_a_version version ≡ true },
    pub ghost amounts_in: { amounts ≤ 12 },
    pub ghost origin_in: { is_origin origin ≡ true },
    pub ghost start_in: { start ≤ last_start },
    pub ghost decimals_in: { have_decimals version amounts assets.entries ≡ true },
    pub ghost labels_in: { are_labels labels.entries ≡ true },
    pub ghost templates_in: { are_numbers templates.entries ≡ true },
    pub ghost few_parties: { index_set_len parties < 2 ^ 32 },
    pub ghost few_assets: { index_map_len assets < 2 ^ 32 },
    pub ghost few_labels: { index_map_len labels < 2 ^ 32 },
    pub ghost few_templates: { index_map_len templates < 2 ^ 32 },
}

impl Decls {
    ghost use Rattle.std.specs.Prelude.{◌≡◌, ◌≤◌};
    ghost use Rattle.term_model.specs.Declarations.{declarations, decimals_of};
    ghost use Rattle.term_model.specs.Environments.{label_of};

    /// The observable that is declared at an index.
    pub fn label(&self, index: u32) -> Option<Label>
        ensures { result ≡ label_of (declarations self.now) index }
    {
        match self.labels.get_index(index as usize) {
            Some((_, label)) => Some(*label),
            None => None,
        }
    }

    /// The decimals of the asset that is declared at an index.
    pub fn decimals(&self, asset: u32) -> u8
        ensures decimals { result ≡ decimals_of (declarations self.now) asset }
        ensures within { result ≤ self.now.amounts }
    {
        match self.assets.get_index(asset as usize) {
            Some((_, decimals)) => *decimals,
            None => self.amounts,
        }
    }
}
