//! Equal terms and declarations, in memory of their own.

ghost use Rattle.std.specs.Prelude.{◌≡◌, ◌<◌, ◌^◌, true, map, IfOk};
ghost use Rattle.indexmap.specs.IndexMap.{index_map_len};
ghost use Rattle.term_model.specs.DayCounts.{day_count};
ghost use Rattle.term_model.specs.Limits.{have_decimals, is_a_version};
ghost use Rattle.term_model.specs.Terms.{expression, contract};
ghost use Rattle.term_model.specs.Terms.{Zero, Pay, Both, Scale, After, Let, Within};
ghost use Rattle.term_model.specs.Declarations.{at_one_scale, declarations};

use crate::decls::Decls;
use crate::label::Label;
use crate::name::Name;
use crate::shifts::moved;
use crate::terms::{Contr, Days, Expr};
use decimal::NoMemory;
use indexmap::{IndexMap, IndexSet};
use std::alloc::Global;

impl Expr {
    /// An equal expression.
    #[tactic(auto, using(crate::proofs::ShiftedFacts::copy_moves, crate::proofs::ShiftedFacts::shifted_zero))]
    pub fn copy(&self, alloc: Global) -> Result<Expr, NoMemory>
        ensures { IfOk result (λ e. expression e ≡ expression self.now) }
    {
        moved(alloc, self, 0)
    }
}

impl Contr {
    /// An equal contract.
    pub fn copy(&self, alloc: Global) -> Result<Contr, NoMemory>
        ensures { IfOk result (λ c. contract c ≡ contract self.now) }
    {
        copied(alloc, self)
    }
}

// A copy of a contract, with a function for each form, as over expressions.
#[cycle(copying)]
fn copied(alloc: Global, c: &Contr) -> Result<Contr, NoMemory>
    ensures { IfOk result (λ r. contract r ≡ contract c.now) }
{
    match c {
        Contr::Zero => nothing(),
        Contr::Pay { asset, from, to } => payment(*asset, *from, *to),
        Contr::Both { left, right } => copied_both(alloc, left, right),
        Contr::Scale { factor, body } => copied_scale(alloc, factor, body),
        Contr::After { days, body } => copied_after(alloc, days, body),
        Contr::Let { bound, body } => copied_let(alloc, bound, body),
        Contr::Within {
            test,
            days,
            hit,
            miss,
        } => copied_within(alloc, test, days, hit, miss),
    }
}

/// A contract that pays nothing.
pub fn nothing() -> Result<Contr, NoMemory>
    ensures { IfOk result (λ r. contract r ≡ Zero) }
{
    Ok(Contr::Zero)
}

/// A contract that pays one unit of an asset.
pub fn payment(asset: u32, from: u32, to: u32) -> Result<Contr, NoMemory>
    ensures { IfOk result (λ r. contract r ≡ Pay asset from to) }
{
    Ok(Contr::Pay { asset, from, to })
}

// A copy of a part.
#[cycle(copying)]
fn copied_part(alloc: Global, part: &Contr) -> Result<Box<Contr>, NoMemory>
    ensures { IfOk result (λ r. contract r.value ≡ contract part.now) }
{
    let part = copied(alloc, part)?;
    Ok(Box::new(alloc, part)?)
}

// A copy of two contracts.
#[cycle(copying)]
fn copied_both(alloc: Global, left: &Contr, right: &Contr) -> Result<Contr, NoMemory>
    ensures { IfOk result (λ r. contract r ≡ Both (contract left.now) (contract right.now)) }
{
    let left = copied_part(alloc, left)?;
    let right = copied_part(alloc, right)?;
    Ok(Contr::Both { left, right })
}

// A copy of a contract with a factor.
#[cycle(copying)]
fn copied_scale(alloc: Global, factor: &Expr, body: &Contr) -> Result<Contr, NoMemory>
    ensures { IfOk result (λ r. contract r ≡ Scale (expression factor.now) (contract body.now)) }
{
    let factor = factor.copy(alloc)?;
    let body = copied_part(alloc, body)?;
    Ok(Contr::Scale { factor, body })
}

// A copy of a contract that waits.
#[cycle(copying)]
fn copied_after(alloc: Global, days: &Days, body: &Contr) -> Result<Contr, NoMemory>
    ensures { IfOk result (λ r. contract r ≡ After (day_count days.now) (contract body.now)) }
{
    let days = days.copy(alloc)?;
    let body = copied_part(alloc, body)?;
    Ok(Contr::After { days, body })
}

// A copy of a contract with a name.
#[cycle(copying)]
fn copied_let(alloc: Global, bound: &Expr, body: &Contr) -> Result<Contr, NoMemory>
    ensures { IfOk result (λ r. contract r ≡ Let (expression bound.now) (contract body.now)) }
{
    let bound = bound.copy(alloc)?;
    let body = copied_part(alloc, body)?;
    Ok(Contr::Let { bound, body })
}

// A copy of a contract with a test.
#[cycle(copying)]
fn copied_within(
    alloc: Global,
    test: &Expr,
    days: &Days,
    hit: &Contr,
    miss: &Contr,
) -> Result<Contr, NoMemory>
    ensures { IfOk result (λ r. contract r
        ≡ Within (expression test.now) (day_count days.now)
        (contract hit.now) (contract miss.now)) }
{
    let hit = copied_part(alloc, hit)?;
    let miss = copied_part(alloc, miss)?;
    let test = test.copy(alloc)?;
    let days = days.copy(alloc)?;
    Ok(Contr::Within {
        test,
        days,
        hit,
        miss,
    })
}

// The same assets, each with so many decimals.
fn with_decimals(
    alloc: Global,
    assets: &IndexMap<Name, u8>,
    decimals: u8,
) -> Result<IndexMap<Name, u8>, NoMemory>
    ensures same { IfOk result (λ r. r.entries
        ≡ map (λ entry. (entry.0, decimals)) assets.now.entries) }
    ensures limits { IfOk result (λ r. have_decimals 1 decimals r.entries ≡ true) }
    ensures few { IfOk result (λ r. index_map_len r ≡ index_map_len assets.now) }
{
    let mut uniform = IndexMap::new(alloc);
    for name in assets.keys() {
        uniform.insert(name.clone()?, decimals)?;
    }
    Ok(uniform)
}

// The names that declarations have beside those of assets, each with what is declared of it.
#[derive(Drop)]
struct Names {
    parties: IndexSet<Name>,
    labels: IndexMap<Name, Label>,
    templates: IndexMap<Name, u32>,
}

impl Decls {
    // Equal names, in memory of their own.
    fn names(&self) -> Result<Names, NoMemory>
        ensures parties { IfOk result (λ r. r.parties.keys ≡ self.now.parties.keys) }
        ensures labels { IfOk result (λ r. r.labels.entries ≡ self.now.labels.entries) }
        ensures templates { IfOk result (λ r. r.templates.entries ≡ self.now.templates.entries) }
    {
        let parties = self.parties.clone()?;
        let labels = self.labels.clone()?;
        let templates = self.templates.clone()?;
        Ok(Names {
            parties,
            labels,
            templates,
        })
    }

    // Declarations with these names and assets, in a version.
    fn with_assets(&self, version: u8, assets: IndexMap<Name, u8>, names: Names) -> Decls
        requires version { is_a_version version ≡ true }
        requires decimals { have_decimals version self.now.amounts assets.entries ≡ true }
        requires few { index_map_len assets < 2 ^ 32 }
        requires parties { names.parties.keys ≡ self.now.parties.keys }
        requires labels { names.labels.entries ≡ self.now.labels.entries }
        requires templates { names.templates.entries ≡ self.now.templates.entries }
        ensures { declarations result
            ≡ record (declarations self.now) { version = version; assets = assets.entries } }
    {
        Decls {
            version,
            amounts: self.amounts,
            origin: self.origin,
            start: self.start,
            parties: names.parties,
            assets,
            labels: names.labels,
            templates: names.templates,
        }
    }

    /// The same declarations in version 1, where each asset has the decimals of the amounts.
    pub fn at_one_scale(&self, alloc: Global) -> Result<Decls, NoMemory>
        ensures { IfOk result (λ r. declarations r ≡ at_one_scale (declarations self.now)) }
    {
        let names = self.names()?;
        let assets = with_decimals(alloc, &self.assets, self.amounts)?;
        Ok(self.with_assets(1, assets, names))
    }

    /// Equal declarations.
    pub fn copy(&self, alloc: Global) -> Result<Decls, NoMemory>
        ensures { IfOk result (λ r. declarations r ≡ declarations self.now) }
    {
        let names = self.names()?;
        let assets = self.assets.clone()?;
        Ok(self.with_assets(self.version, assets, names))
    }
}
