//! The texts of contracts, and of what they name.

ghost use Rattle.std.specs.Prelude.{◌≡◌, ◌≤◌, ◌+◌, ◌++◌, [], OnOk, codes};
ghost use Rattle.std.specs.Map.{keys_of};
ghost use Rattle.term_model.specs.Declarations.{declarations};
ghost use Rattle.term_model.specs.Terms.{contract, expression};
ghost use Rattle.term_model.specs.Sizes.{height, height_of_contract};
ghost use Rattle.contract_grammar.specs.Names.{declared_by};
ghost use Rattle.term_model.specs.DayCounts.{day_count};
ghost use Rattle.contract_print.specs.TermTexts.{◌⊕◌, bound_name, contr_text, days_text, expr_text, more_days_text, name_at, observed, sum_text};
ghost use Rattle.contract_grammar.specs.Writable.{IsWritable, IsWritableContract};

use crate::exprs::{Leaf, append_expr};
use crate::pieces::{append, append_bound_name, append_number};
use decimal::{NoMemory, write};
use indexmap::{IndexMap, IndexSet};
use std::alloc::Global;
use term_model::{Contr, Days, Decls, Expr, Label, Name};

/// Appends a declared name, by its index.
pub fn append_name(out: &mut Vec<u8>, names: &IndexSet<Name>, index: u32) -> Result<(), NoMemory>
    ensures { OnOk result (out.new.items ≡ out.old.items ++ name_at names.now.keys index) }
{
    match names.get_index(index as usize) {
        Some(name) => append(out, name.text()),
        None => Ok(()),
    }
}

/// Appends the name of an asset, by its index.
pub fn append_asset_name(
    out: &mut Vec<u8>,
    assets: &IndexMap<Name, u8>,
    index: u32,
) -> Result<(), NoMemory>
    ensures { OnOk result (out.new.items
        ≡ out.old.items ++ name_at (keys_of assets.now.entries) index) }
{
    match assets.get_index(index as usize) {
        Some((name, _)) => append(out, name.text()),
        None => Ok(()),
    }
}

/// Appends the name of a label, by its index.
pub fn append_label_name(
    out: &mut Vec<u8>,
    labels: &IndexMap<Name, Label>,
    index: u32,
) -> Result<(), NoMemory>
    ensures { OnOk result (out.new.items
        ≡ out.old.items ++ name_at (keys_of labels.now.entries) index) }
{
    match labels.get_index(index as usize) {
        Some((name, _)) => append(out, name.text()),
        None => Ok(()),
    }
}

/// Appends the name of a template, by its index.
pub fn append_template_name(
    out: &mut Vec<u8>,
    templates: &IndexMap<Name, u32>,
    index: u32,
) -> Result<(), NoMemory>
    ensures { OnOk result (out.new.items
        ≡ out.old.items ++ name_at (keys_of templates.now.entries) index) }
{
    match templates.get_index(index as usize) {
        Some((name, _)) => append(out, name.text()),
        None => Ok(()),
    }
}

/// The observables of a portfolio: `obs(NAME, offset)`.
#[derive(Clone, Copy)]
pub struct Observables<'a> {
    pub labels: &'a IndexMap<Name, Label>,
}

impl<'a> Leaf for Observables<'a> {
    ghost text = { λ o label offset. observed (keys_of o.labels.now.entries) label offset };

    fn append_leaf(
        &self,
        alloc: Global,
        out: &mut Vec<u8>,
        label: u32,
        offset: i32,
    ) -> Result<(), NoMemory> {
        append(out, b"obs(")?;
        append_label_name(out, self.labels, label)?;
        append(out, b", ")?;
        write(alloc, out, offset as i128, 0)?;
        append(out, b")")
    }
}

// Appends further templates of a sum.
fn append_more_days(out: &mut Vec<u8>, decls: &Decls, names: &[u32]) -> Result<(), NoMemory>
    ensures { OnOk result (out.new.items
        ≡ out.old.items ++ more_days_text (declared_by (declarations decls.now) []) names.now) }
{
    for name in names {
        append(out, b" + ")?;
        append_template_name(out, &decls.templates, *name)?;
    }
    Ok(())
}

// Appends a sum: its number where that is not 0, and its templates.
fn append_sum(
    alloc: Global,
    out: &mut Vec<u8>,
    decls: &Decls,
    days: u32,
    names: &[u32],
) -> Result<(), NoMemory>
    ensures { OnOk result (out.new.items
        ≡ out.old.items ++ sum_text (declared_by (declarations decls.now) []) days names.now) }
{
    match names.split_first() {
        Some((name, rest)) if days == 0 => {
            append_template_name(out, &decls.templates, *name)?;
            append_more_days(out, decls, rest)
        }
        _ => {
            append_number(alloc, out, days)?;
            append_more_days(out, decls, names)
        }
    }
}

/// Appends a count of days: a number, the name of a template, or a sum of these.
pub fn append_days(
    alloc: Global,
    out: &mut Vec<u8>,
    decls: &Decls,
    days: &Days,
) -> Result<(), NoMemory>
    ensures { OnOk result (out.new.items ≡ out.old.items
        ++ days_text (declared_by (declarations decls.now) []) (day_count days.now)) }
{
    match days {
        Days::Num { days } => append_number(alloc, out, *days),
        Days::Named { template } => append_template_name(out, &decls.templates, *template),
        Days::Sum { sum } => append_sum(alloc, out, decls, sum.days, sum.names.as_slice()),
    }
}

// An expression of a contract.
fn append_observing(
    alloc: Global,
    out: &mut Vec<u8>,
    decls: &Decls,
    binders: u32,
    e: &Expr,
) -> Result<(), NoMemory>
    requires writable { IsWritable binders (expression e.now) }
    requires low { binders + height (expression e.now) ≤ 1_000 }
    ensures { OnOk result (out.new.items ≡ out.old.items
        ++ expr_text (observed (keys_of decls.now.labels.entries)) binders (expression e.now)) }
{
    let leaf = Observables {
        labels: &decls.labels,
    };
    append_expr(alloc, out, &leaf, binders, e)
}

// A payment.
fn append_payment(
    out: &mut Vec<u8>,
    decls: &Decls,
    asset: u32,
    from: u32,
    to: u32,
) -> Result<(), NoMemory>
    ensures { OnOk result (out.new.items ≡ out.old.items
        ++ (codes "pay(" ⊕ name_at (keys_of decls.now.assets.entries) asset ⊕ codes ", "
        ⊕ name_at decls.now.parties.keys from ⊕ codes ", "
        ⊕ name_at decls.now.parties.keys to ⊕ codes ")")) }
{
    append(out, b"pay(")?;
    append_asset_name(out, &decls.assets, asset)?;
    append(out, b", ")?;
    append_name(out, &decls.parties, from)?;
    append(out, b", ")?;
    append_name(out, &decls.parties, to)?;
    append(out, b")")
}

// What stands before the contract that is scaled.
fn append_scaling(
    alloc: Global,
    out: &mut Vec<u8>,
    decls: &Decls,
    binders: u32,
    factor: &Expr,
) -> Result<(), NoMemory>
    requires writable { IsWritable binders (expression factor.now) }
    requires low { binders + height (expression factor.now) ≤ 1_000 }
    ensures { OnOk result (out.new.items ≡ out.old.items ++ (codes "scale("
        ⊕ expr_text (observed (keys_of decls.now.labels.entries)) binders (expression factor.now)
        ⊕ codes ", ")) }
{
    append(out, b"scale(")?;
    append_observing(alloc, out, decls, binders, factor)?;
    append(out, b", ")
}

// What stands before the contract that comes after some days.
fn append_delay(
    alloc: Global,
    out: &mut Vec<u8>,
    decls: &Decls,
    days: &Days,
) -> Result<(), NoMemory>
    ensures { OnOk result (out.new.items ≡ out.old.items ++ (codes "after("
        ⊕ days_text (declared_by (declarations decls.now) []) (day_count days.now)
        ⊕ codes ", ")) }
{
    append(out, b"after(")?;
    append_days(alloc, out, decls, days)?;
    append(out, b", ")
}

// What stands before the contract in which a name is bound.
fn append_binding(
    alloc: Global,
    out: &mut Vec<u8>,
    decls: &Decls,
    binders: u32,
    bound: &Expr,
) -> Result<(), NoMemory>
    requires writable { IsWritable binders (expression bound.now) }
    requires low { binders + height (expression bound.now) ≤ 1_000 }
    ensures { OnOk result (out.new.items ≡ out.old.items
        ++ (codes "let " ⊕ bound_name binders ⊕ codes " = "
        ⊕ expr_text (observed (keys_of decls.now.labels.entries)) binders (expression bound.now)
        ⊕ codes " in ")) }
{
    append(out, b"let ")?;
    append_bound_name(alloc, out, binders)?;
    append(out, b" = ")?;
    append_observing(alloc, out, decls, binders, bound)?;
    append(out, b" in ")
}

// What stands before the two contracts of which a test chooses one.
fn append_test(
    alloc: Global,
    out: &mut Vec<u8>,
    decls: &Decls,
    binders: u32,
    test: &Expr,
    days: &Days,
) -> Result<(), NoMemory>
    requires writable { IsWritable binders (expression test.now) }
    requires low { binders + height (expression test.now) ≤ 1_000 }
    ensures { OnOk result (out.new.items ≡ out.old.items ++ (codes "if "
        ⊕ expr_text (observed (keys_of decls.now.labels.entries)) binders (expression test.now)
        ⊕ codes " within "
        ⊕ days_text (declared_by (declarations decls.now) []) (day_count days.now)
        ⊕ codes " then ")) }
{
    append(out, b"if ")?;
    append_observing(alloc, out, decls, binders, test)?;
    append(out, b" within ")?;
    append_days(alloc, out, decls, days)?;
    append(out, b" then ")
}

/// Appends the canonical text of a contract that has so many binders round it.
pub fn append_contr(
    alloc: Global,
    out: &mut Vec<u8>,
    decls: &Decls,
    binders: u32,
    c: &Contr,
) -> Result<(), NoMemory>
    requires writable { IsWritableContract binders (contract c.now) }
    requires low { binders + height_of_contract (contract c.now) ≤ 1_000 }
    ensures { OnOk result (out.new.items ≡ out.old.items
        ++ contr_text (declared_by (declarations decls.now) []) binders (contract c.now)) }
{
    match c {
        Contr::Zero => append(out, b"zero"),
        Contr::Pay { asset, from, to } => append_payment(out, decls, *asset, *from, *to),
        Contr::Both { left, right } => {
            append(out, b"both(")?;
            append_contr(alloc, out, decls, binders, left)?;
            append(out, b", ")?;
            append_contr(alloc, out, decls, binders, right)?;
            append(out, b")")
        }
        Contr::Scale { factor, body } => {
            append_scaling(alloc, out, decls, binders, factor)?;
            append_contr(alloc, out, decls, binders, body)?;
            append(out, b")")
        }
        Contr::After { days, body } => {
            append_delay(alloc, out, decls, days)?;
            append_contr(alloc, out, decls, binders, body)?;
            append(out, b")")
        }
        Contr::Let { bound, body } => {
            append_binding(alloc, out, decls, binders, bound)?;
            append_contr(alloc, out, decls, binders + 1, body)
        }
        Contr::Within {
            test,
            days,
            hit,
            miss,
        } => {
            append_test(alloc, out, decls, binders, test, days)?;
            append_contr(alloc, out, decls, binders, hit)?;
            append(out, b" else ")?;
            append_contr(alloc, out, decls, binders, miss)
        }
    }
}
