//! The lines of flow tables.

ghost use Rattle.std.specs.Prelude.{◌≡◌, ◌≤ℤ◌, ◌+ℤ◌, ◌++◌, pos, Some, OnOk, OnErr};
ghost use Rattle.std.specs.Map.{keys_of};
ghost use Rattle.decimal.specs.Appending.{AppendsPart};
ghost use Rattle.term_model.specs.Dates.{epoch_day_of};
ghost use Rattle.term_model.specs.Declarations.{declarations};
ghost use Rattle.interval_check.specs.Safety.{IsSmall};
ghost use Rattle.flow_eval.specs.Readiness.{last_day};
ghost use Rattle.report.specs.Pieces.{piece_text, IsWritable};
ghost use Rattle.report.specs.FlowLines.{AppendsFlowLine, AppendsPartOfLine, IsAmountInAsset, IsOrigin, IsWholeInAsset, line_on, name_at};

use crate::pieces::{Piece, append};
use decimal::{Mode, NoMemory, round_to};
use flow_eval::FlowRow;
use indexmap::{IndexMap, IndexSet};
use std::alloc::Global;
use term_model::{Decls, Name, date_text};

/// A declared name.
pub fn name_piece<'a>(names: &'a IndexSet<Name>, place: u32) -> Piece<'a>
    ensures text { piece_text result ≡ name_at names.now.keys place }
    ensures writable { IsWritable result }
{
    match names.get_index(place as usize) {
        Some(name) => Piece::Words(name.text()),
        None => Piece::Words(&[]),
    }
}

/// The name of an asset.
pub fn asset_piece<'a>(assets: &'a IndexMap<Name, u8>, place: u32) -> Piece<'a>
    ensures text { piece_text result ≡ name_at (keys_of assets.now.entries) place }
    ensures writable { IsWritable result }
{
    match assets.get_index(place as usize) {
        Some((name, _)) => Piece::Words(name.text()),
        None => Piece::Words(&[]),
    }
}

// The line with these words or this number for the day.
fn append_line<'a>(
    alloc: Global,
    out: &mut Vec<u8>,
    decls: &'a Decls,
    name: &'a [u8],
    day: Piece<'a>,
    row: &FlowRow,
    amount: i128,
) -> Result<(), NoMemory>
    requires day { IsWritable day }
    requires amount { IsSmall amount }
    ensures ok { OnOk result (out.new.items
        ≡ out.old.items ++ line_on decls.now name.now day.entry row.now amount) }
    ensures err { OnErr result (AppendsPart out.old.items
        (line_on decls.now name.now day.entry row.now amount) out.new.items) }
{
    let comma = Piece::Words(b",");
    let pieces = [
        Piece::Words(name),
        comma,
        day,
        comma,
        name_piece(&decls.parties, row.from),
        comma,
        name_piece(&decls.parties, row.to),
        comma,
        asset_piece(&decls.assets, row.asset),
        comma,
        Piece::Number {
            mantissa: amount,
            scale: decls.decimals(row.asset),
        },
        Piece::Words(b"\n"),
    ];
    append(alloc, out, &pieces)
}

/// An amount in units of its asset's decimals.
pub fn amount_in_asset(decls: &Decls, asset: u32, amount: &i128) -> i128
    requires small { IsSmall amount.now }
    requires whole { IsWholeInAsset (declarations decls.now) asset amount.now }
    ensures small { IsSmall result }
    ensures exact { IsAmountInAsset (declarations decls.now) asset amount.now result }
{
    round_to(Mode::Floor, *amount, decls.amounts, decls.decimals(asset))
}

/// The date of a day of a portfolio that has an origin.
pub fn date_of(origin: i64, day: i64) -> [u8; 10]
    requires origin { IsOrigin origin }
    requires first { pos 0 ≤ℤ day }
    requires last { day ≤ℤ pos last_day }
    ensures { epoch_day_of result ≡ Some (origin +ℤ day) }
{
    date_text(origin + day)
}

/// Appends the line `NAME,DAY,FROM,TO,ASSET,AMOUNT` of a flow, with the day as a date where the
/// portfolio has an origin, and the amount at the asset's decimals. Where memory runs out on the
/// way, a front part of that line may stand in `out` already.
pub fn flow_line(
    alloc: Global,
    out: &mut Vec<u8>,
    decls: &Decls,
    name: &[u8],
    row: &FlowRow,
) -> Result<(), NoMemory>
    requires first { pos 0 ≤ℤ row.now.day }
    requires last { row.now.day ≤ℤ pos last_day }
    requires amount { IsSmall row.now.amount }
    requires multiple { IsWholeInAsset (declarations decls.now) row.now.asset row.now.amount }
    ensures ok { OnOk result (AppendsFlowLine (declarations decls.now) name.now row.now
        out.old.items out.new.items) }
    ensures err { OnErr result (AppendsPartOfLine (declarations decls.now) name.now row.now
        out.old.items out.new.items) }
{
    let amount = amount_in_asset(decls, row.asset, &row.amount);
    match decls.origin {
        None => {
            let day = Piece::Number {
                mantissa: row.day as i128,
                scale: 0,
            };
            append_line(alloc, out, decls, name, day, row, amount)
        }
        Some(origin) => {
            let date = date_of(origin, row.day);
            append_line(alloc, out, decls, name, Piece::Words(&date), row, amount)
        }
    }
}
