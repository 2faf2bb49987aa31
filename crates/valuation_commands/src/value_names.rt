//! The names of words: parties, an asset and templates that the declarations have.

ghost use Rattle.std.specs.Prelude.{◌≡◌, ◌<◌, ◌^◌, IfOk, Some};
ghost use Rattle.std.specs.Map.{keys_of};
ghost use Rattle.indexmap.specs.IndexMap.{index_map_len};
ghost use Rattle.term_model.specs.Declarations.{declarations};
ghost use Rattle.contract_grammar.specs.Names.{index_in};
ghost use Rattle.command_words.specs.Words.{between_by, value_by};
ghost use Rattle.command_courses.specs.Names.{IsUndeclared};
ghost use Rattle.command_courses.specs.Stopping.{AnswersBy, AnswersStage};
ghost use Rattle.valuation_commands.specs.ValueParts.{AnswersParties, AnswersSettings, flow_of};
ghost use Rattle.valuation_commands.specs.ValuePromise.{setting_by};
ghost use Rattle.valuation_commands.specs.ValueStages.{names_of_value};

use command_courses::{Stop, index_of};
use command_words::{Between, Value};
use decimal::NoMemory;
use indexmap::IndexMap;
use report::Fault;
use std::alloc::Global;
use term_model::{Decls, Name, Setting};

/// Two parties and an asset, by their indices.
#[derive(Clone, Copy)]
pub struct Parties {
    pub from: u32,
    pub to: u32,
    pub asset: u32,
}

// The same of an asset.
fn index_of_asset(alloc: Global, assets: &IndexMap<Name, u8>, word: &str) -> Result<u32, Stop>
    requires { index_map_len assets.now < 2 ^ 32 }
    ensures { AnswersBy (λ index. index_in (keys_of assets.now.entries) word.now ≡ Some index)
        (IsUndeclared (keys_of assets.now.entries) word.now) result }
{
    match assets.get_index_of(word.as_bytes()) {
        Some(index) => Ok(index as u32),
        None => {
            let name = Name::new(alloc, word.as_bytes())?;
            Err(Stop::Fault(Fault::UnknownName { name }))
        }
    }
}

// The parties and the asset.
fn parties_of(alloc: Global, decls: &Decls, between: &Between<'_>) -> Result<Parties, Stop>
    ensures { AnswersParties (declarations decls.now) (between_by between.now) result }
{
    let from = index_of(alloc, &decls.parties, between.from)?;
    let to = index_of(alloc, &decls.parties, between.to)?;
    let asset = index_of_asset(alloc, &decls.assets, between.asset)?;
    Ok(Parties { from, to, asset })
}

// Stops at the first name that is set and is that of no template.
fn know_settings(alloc: Global, decls: &Decls, settings: &IndexMap<Name, u32>) -> Result<(), Stop>
    ensures { AnswersSettings (declarations decls.now) settings.now.entries result }
{
    for (name, _) in settings {
        if decls.templates.get_index_of(name.text()).is_none() {
            let name = Name::new(alloc, name.text())?;
            return Err(Stop::Fault(Fault::UnknownName { name }));
        }
    }
    Ok(())
}

/// The parties and the asset, where these and the templates that are set are declared.
pub fn know_names(alloc: Global, decls: &Decls, value: &Value<'_>) -> Result<Parties, Stop>
    ensures { AnswersStage (names_of_value (declarations decls.now) (value_by value.now)) flow_of
        result }
{
    let parties = parties_of(alloc, decls, &value.between)?;
    know_settings(alloc, decls, &value.settings)?;
    Ok(parties)
}

/// A number for each template: the one that is set, or the declared one.
pub fn setting_of(
    alloc: Global,
    decls: &Decls,
    settings: &IndexMap<Name, u32>,
) -> Result<Setting, NoMemory>
    ensures { IfOk result (λ setting. setting.days.items
        ≡ setting_by (declarations decls.now) settings.now.entries) }
{
    let mut days = Vec::new(alloc);
    for (name, declared) in &decls.templates {
        let number = settings.get(name.text()).copied().unwrap_or(*declared);
        days.push(number)?;
    }
    Ok(Setting { days })
}
