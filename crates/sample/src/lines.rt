//! The lines of a summary.

ghost use Rattle.std.specs.Prelude.{◌≡◌, ◌≤◌, ◌^◌, ◌++◌, IfOk, OnOk};
ghost use Rattle.std.specs.Map.{keys_of};
ghost use Rattle.std.specs.List.{flat_map};
ghost use Rattle.decimal.specs.Text.{text_of};
ghost use Rattle.term_model.specs.Declarations.{declarations};
ghost use Rattle.interval_check.specs.Safety.{IsSmall};
ghost use Rattle.flow_eval.specs.Tables.{FitsLine};
ghost use Rattle.report.specs.CheckLines.{line_feed};
ghost use Rattle.report.specs.FlowLines.{field, name_at};
ghost use Rattle.sample.specs.Days.{AreUndated};
ghost use Rattle.sample.specs.Sample.{sample_declarations};
ghost use Rattle.sample.specs.Summary.{sum_line, summary_text};

use decimal::{NoMemory, write};
use flow_eval::FlowRow;
use indexmap::{IndexMap, IndexSet};
use std::alloc::Global;
use term_model::{Decls, Name};

// Appends a word and a number.
fn append_number(
    alloc: Global,
    out: &mut Vec<u8>,
    word: &[u8],
    number: i128,
) -> Result<(), NoMemory>
    requires { IsSmall number }
    ensures { OnOk result (out.new.items
        ≡ out.old.items ++ (word.now ++ (text_of number 0 ++ line_feed))) }
{
    out.extend_from_slice(word)?;
    write(alloc, out, number, 0)?;
    out.push(b'\n')?;
    Ok(())
}

// Appends a declared name.
fn append_name(out: &mut Vec<u8>, names: &IndexSet<Name>, place: u32) -> Result<(), NoMemory>
    ensures { OnOk result (out.new.items ≡ out.old.items ++ name_at names.now.keys place) }
{
    if let Some(name) = names.get_index(place as usize) {
        out.extend_from_slice(name.text())?;
    }
    Ok(())
}

// Appends a comma and a declared name.
fn append_field(out: &mut Vec<u8>, names: &IndexSet<Name>, place: u32) -> Result<(), NoMemory>
    ensures { OnOk result (out.new.items ≡ out.old.items ++ field (name_at names.now.keys place)) }
{
    out.push(b',')?;
    append_name(out, names, place)
}

// Appends the name of an asset.
fn append_asset_name(
    out: &mut Vec<u8>,
    assets: &IndexMap<Name, u8>,
    place: u32,
) -> Result<(), NoMemory>
    ensures { OnOk result (out.new.items
        ≡ out.old.items ++ name_at (keys_of assets.now.entries) place) }
{
    if let Some((name, _)) = assets.get_index(place as usize) {
        out.extend_from_slice(name.text())?;
    }
    Ok(())
}

// Appends a comma and the name of an asset.
fn append_asset(out: &mut Vec<u8>, assets: &IndexMap<Name, u8>, place: u32) -> Result<(), NoMemory>
    ensures { OnOk result (out.new.items
        ≡ out.old.items ++ field (name_at (keys_of assets.now.entries) place)) }
{
    out.push(b',')?;
    append_asset_name(out, assets, place)
}

// Appends a comma and an amount, and ends the line.
fn append_amount(
    alloc: Global,
    out: &mut Vec<u8>,
    amount: i128,
    decimals: u8,
) -> Result<(), NoMemory>
    requires amount { IsSmall amount }
    requires decimals { decimals ≤ 27 }
    ensures { OnOk result (out.new.items
        ≡ out.old.items ++ (field (text_of amount decimals) ++ line_feed)) }
{
    out.push(b',')?;
    write(alloc, out, amount, decimals)?;
    out.push(b'\n')?;
    Ok(())
}

// Appends who pays whom in what, and how much.
fn append_sum(
    alloc: Global,
    out: &mut Vec<u8>,
    decls: &Decls,
    row: &FlowRow,
) -> Result<(), NoMemory>
    requires { FitsLine row.now.amount }
    ensures { OnOk result (out.new.items
        ≡ out.old.items ++ sum_line (declarations decls.now) row.now) }
{
    append_name(out, &decls.parties, row.from)?;
    append_field(out, &decls.parties, row.to)?;
    append_asset(out, &decls.assets, row.asset)?;
    append_amount(alloc, out, row.amount, decls.decimals(row.asset))?;
    Ok(())
}

// Appends the lines of sums.
fn append_sums(
    alloc: Global,
    out: &mut Vec<u8>,
    decls: &Decls,
    rows: &[FlowRow],
) -> Result<(), NoMemory>
    requires { AreUndated rows.now }
    ensures { OnOk result (out.new.items
        ≡ out.old.items ++ flat_map (sum_line (declarations decls.now)) rows.now) }
{
    for row in rows {
        append_sum(alloc, out, decls, row)?;
    }
    Ok(())
}

/// The text of a summary: the number of contracts, the number of flow lines and the sums.
pub fn summary_text(
    alloc: Global,
    decls: &Decls,
    count: u32,
    lines: u128,
    rows: &[FlowRow],
) -> Result<Vec<u8>, NoMemory>
    requires declared { declarations decls.now ≡ sample_declarations }
    requires lines { lines ≤ 10 ^ 30 }
    requires due { AreUndated rows.now }
    ensures { IfOk result (λ text. text.items ≡ summary_text count lines rows.now) }
{
    let mut text = Vec::new(alloc);
    append_number(alloc, &mut text, b"contracts ", count as i128)?;
    append_number(alloc, &mut text, b"lines ", lines as i128)?;
    append_sums(alloc, &mut text, decls, rows)?;
    Ok(text)
}
