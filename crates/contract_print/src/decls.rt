//! The lines of declarations.

ghost use Rattle.std.specs.Prelude.{◌≡◌, ◌++◌, true, OnOk, OnErr};
ghost use Rattle.term_model.specs.Declarations.{declarations};
ghost use Rattle.term_model.specs.Limits.{are_labels, is_label};
ghost use Rattle.term_model.specs.declared.label.Label.TheVariants.{Number};
ghost use Rattle.contract_grammar.specs.Versions.{version_of};
ghost use Rattle.contract_print.specs.Canon.{AppendsDecls, IsOriginText, amounts_text, asset_text, assets_text, decls_text, first_lines, label_text, labels_text, more_assets_text, more_names_text, names_text, origin_text, range_text, start_text, table_lines, template_text, templates_text};

use crate::pieces::{append, append_number};
use decimal::{NoMemory, write};
use indexmap::map::Slice;
use indexmap::{IndexMap, IndexSet};
use std::alloc::Global;
use term_model::{Decls, Label, Name, date_text};

// The further names of a line.
fn append_more_names(out: &mut Vec<u8>, names: &[Name]) -> Result<(), NoMemory>
    ensures { OnOk result (out.new.items ≡ out.old.items ++ more_names_text names.now) }
{
    for name in names {
        append(out, b", ")?;
        append(out, name.text())?;
    }
    append(out, b";\n")
}

// One line with all names, where there is one.
fn append_names(out: &mut Vec<u8>, word: &[u8], names: &IndexSet<Name>) -> Result<(), NoMemory>
    ensures { OnOk result (out.new.items ≡ out.old.items ++ names_text word.now names.now.keys) }
{
    match names.iter().as_slice() {
        [] => Ok(()),
        [first, rest @ ..] => {
            append(out, word)?;
            append(out, b" ")?;
            append(out, first.text())?;
            append_more_names(out, rest)
        }
    }
}

// An asset, in version 2 with its decimals.
fn append_asset(
    alloc: Global,
    out: &mut Vec<u8>,
    version: u8,
    name: &[u8],
    decimals: u8,
) -> Result<(), NoMemory>
    ensures { OnOk result (out.new.items
        ≡ out.old.items ++ asset_text (version_of version) name.now decimals) }
{
    append(out, name)?;
    if version == 2 {
        append(out, b" : ")?;
        append_number(alloc, out, decimals as u32)
    } else {
        Ok(())
    }
}

// The further assets of their line.
fn append_more_assets(
    alloc: Global,
    out: &mut Vec<u8>,
    version: u8,
    assets: &Slice<'_, Name, u8>,
) -> Result<(), NoMemory>
    ensures { OnOk result (out.new.items
        ≡ out.old.items ++ more_assets_text (version_of version) assets.now) }
{
    for (name, decimals) in assets {
        append(out, b", ")?;
        append_asset(alloc, out, version, name.text(), *decimals)?;
    }
    append(out, b";\n")
}

// One line with all assets, where there is one.
fn append_assets(
    alloc: Global,
    out: &mut Vec<u8>,
    version: u8,
    assets: &IndexMap<Name, u8>,
) -> Result<(), NoMemory>
    ensures { OnOk result (out.new.items
        ≡ out.old.items ++ assets_text (version_of version) assets.now.entries) }
{
    match assets.as_slice().split_first() {
        None => Ok(()),
        Some(((name, decimals), rest)) => {
            append(out, b"asset ")?;
            append_asset(alloc, out, version, name.text(), *decimals)?;
            append_more_assets(alloc, out, version, &rest)
        }
    }
}

// The scale and the bounds of a label.
fn append_range(
    alloc: Global,
    out: &mut Vec<u8>,
    scale: u8,
    low: i128,
    high: i128,
) -> Result<(), NoMemory>
    requires { is_label (Number scale low high) ≡ true }
    ensures { OnOk result (out.new.items ≡ out.old.items ++ range_text scale low high) }
{
    append(out, b" : ")?;
    append_number(alloc, out, scale as u32)?;
    append(out, b" in ")?;
    write(alloc, out, low, scale)?;
    append(out, b" .. ")?;
    write(alloc, out, high, scale)
}

// A label's line.
fn append_label(
    alloc: Global,
    out: &mut Vec<u8>,
    name: &[u8],
    label: &Label,
) -> Result<(), NoMemory>
    requires { is_label label.now ≡ true }
    ensures { OnOk result (out.new.items ≡ out.old.items ++ label_text name.now label.now) }
{
    match label {
        Label::Number { scale, low, high } => {
            append(out, b"num ")?;
            append(out, name)?;
            append_range(alloc, out, *scale, *low, *high)?;
            append(out, b";\n")
        }
        Label::Flag => {
            append(out, b"flag ")?;
            append(out, name)?;
            append(out, b";\n")
        }
    }
}

// The lines of labels.
fn append_labels(
    alloc: Global,
    out: &mut Vec<u8>,
    labels: &IndexMap<Name, Label>,
) -> Result<(), NoMemory>
    requires { are_labels labels.now.entries ≡ true }
    ensures { OnOk result (out.new.items ≡ out.old.items ++ labels_text labels.now.entries) }
{
    for (name, label) in labels {
        append_label(alloc, out, name.text(), label)?;
    }
    Ok(())
}

// A template's line.
fn append_template(alloc: Global, out: &mut Vec<u8>, name: &[u8], days: u32) -> Result<(), NoMemory>
    ensures { OnOk result (out.new.items ≡ out.old.items ++ template_text name.now days) }
{
    append(out, b"template ")?;
    append(out, name)?;
    append(out, b" = ")?;
    append_number(alloc, out, days)?;
    append(out, b";\n")
}

// The lines of templates.
fn append_templates(
    alloc: Global,
    out: &mut Vec<u8>,
    templates: &IndexMap<Name, u32>,
) -> Result<(), NoMemory>
    ensures { OnOk result (out.new.items ≡ out.old.items ++ templates_text templates.now.entries) }
{
    for (name, days) in templates {
        append_template(alloc, out, name.text(), *days)?;
    }
    Ok(())
}

/// The text of the origin's date; without an origin any bytes, which are not written.
pub fn origin_date(decls: &Decls) -> [u8; 10]
    ensures { IsOriginText decls.now.origin result }
{
    match decls.origin {
        Some(day) => date_text(day),
        None => [b'0'; 10],
    }
}

// The line of the origin, where there is one.
fn append_origin(out: &mut Vec<u8>, date: &[u8], origin: Option<i64>) -> Result<(), NoMemory>
    ensures { OnOk result (out.new.items ≡ out.old.items ++ origin_text date.now origin) }
{
    match origin {
        Some(_) => {
            append(out, b"origin ")?;
            append(out, date)?;
            append(out, b";\n")
        }
        None => Ok(()),
    }
}

// The line of the start.
#[tactic(auto, unfolding(crate::specs::Canon::start_text))]
fn append_start(alloc: Global, out: &mut Vec<u8>, day: u32) -> Result<(), NoMemory>
    ensures { OnOk result (out.new.items ≡ out.old.items ++ start_text day) }
{
    append(out, b"start ")?;
    append_number(alloc, out, day)?;
    append(out, b";\n")
}

// The line of the decimals of amounts.
#[tactic(auto, unfolding(crate::specs::Canon::amounts_text))]
fn append_amounts(alloc: Global, out: &mut Vec<u8>, amounts: u8) -> Result<(), NoMemory>
    ensures { OnOk result (out.new.items ≡ out.old.items ++ amounts_text amounts) }
{
    append(out, b"amounts ")?;
    append_number(alloc, out, amounts as u32)?;
    append(out, b";\n")
}

// The lines of numbers, with the text of the origin's date.
fn append_first_lines(
    alloc: Global,
    out: &mut Vec<u8>,
    date: &[u8],
    decls: &Decls,
) -> Result<(), NoMemory>
    ensures { OnOk result (out.new.items
        ≡ out.old.items ++ first_lines date.now (declarations decls.now)) }
{
    append_amounts(alloc, out, decls.amounts)?;
    append_origin(out, date, decls.origin)?;
    append_start(alloc, out, decls.start)
}

// The lines of names.
fn append_tables(alloc: Global, out: &mut Vec<u8>, decls: &Decls) -> Result<(), NoMemory>
    ensures { OnOk result (out.new.items ≡ out.old.items ++ table_lines (declarations decls.now)) }
{
    append_names(out, b"party", &decls.parties)?;
    append_assets(alloc, out, decls.version, &decls.assets)?;
    append_labels(alloc, out, &decls.labels)?;
    append_templates(alloc, out, &decls.templates)
}

/// Appends the lines of declarations, with the text of their origin's date.
pub fn append_decls(
    alloc: Global,
    out: &mut Vec<u8>,
    date: &[u8],
    decls: &Decls,
) -> Result<(), NoMemory>
    ensures { OnOk result (out.new.items
        ≡ out.old.items ++ decls_text date.now (declarations decls.now)) }
{
    append_first_lines(alloc, out, date, decls)?;
    append_tables(alloc, out, decls)
}

/// Appends the canonical lines of declarations. The lines are made in memory of their own and
/// appended at once: where memory runs out, nothing is appended.
pub fn print_decls(alloc: Global, out: &mut Vec<u8>, decls: &Decls) -> Result<(), NoMemory>
    ensures ok { OnOk result (AppendsDecls (declarations decls.now) out.old.items out.new.items) }
    ensures err { OnErr result (out.new.items ≡ out.old.items) }
{
    let date = origin_date(decls);
    let mut text = Vec::new(alloc);
    append_decls(alloc, &mut text, &date, decls)?;
    out.extend_from_slice(&text)?;
    Ok(())
}
