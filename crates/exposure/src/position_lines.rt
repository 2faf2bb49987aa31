//! The lines of positions.

ghost use Rattle.std.specs.Prelude.{◌≡◌, ◌≤ℤ◌, ◌++◌, pos, OnOk, OnErr};
ghost use Rattle.decimal.specs.Appending.{AppendsPart};
ghost use Rattle.term_model.specs.Declarations.{declarations};
ghost use Rattle.interval_check.specs.Safety.{IsSmall};
ghost use Rattle.flow_eval.specs.Readiness.{last_day};
ghost use Rattle.report.specs.FlowLines.{IsWholeInAsset};
ghost use Rattle.report.specs.Pieces.{IsWritable};
ghost use Rattle.exposure.specs.PositionLines.{AppendsPartOfPositionLine, AppendsPositionLine, line_on};

use crate::accounts::PositionRow;
use decimal::NoMemory;
use report::{Piece, amount_in_asset, append, asset_piece, date_of, name_piece};
use std::alloc::Global;
use term_model::Decls;

// The line with these words or this number for the day.
fn append_line<'a>(
    alloc: Global,
    out: &mut Vec<u8>,
    decls: &'a Decls,
    day: Piece<'a>,
    row: &PositionRow,
    amount: i128,
) -> Result<(), NoMemory>
    requires day { IsWritable day }
    requires amount { IsSmall amount }
    ensures ok { OnOk result (out.new.items
        ≡ out.old.items ++ line_on decls.now day.entry row.now amount) }
    ensures err { OnErr result (AppendsPart out.old.items
        (line_on decls.now day.entry row.now amount) out.new.items) }
{
    let comma = Piece::Words(b",");
    let pieces = [
        day,
        comma,
        name_piece(&decls.parties, row.party),
        comma,
        asset_piece(&decls.assets, row.asset),
        comma,
        Piece::Number {
            mantissa: amount,
            scale: decls.decimals(row.asset),
        },
        Piece::Words(b"\n"),
    ];
    append(alloc, out, &pieces)
}

/// Appends the line `DAY,PARTY,ASSET,AMOUNT` of a position, with the day as a date where the
/// portfolio has an origin, and the amount at the asset's decimals, with `-` before it where it is
/// below 0. Where memory runs out on the way, a front part of that line may stand in `out` already.
pub fn position_line(
    alloc: Global,
    out: &mut Vec<u8>,
    decls: &Decls,
    row: &PositionRow,
) -> Result<(), NoMemory>
    requires first { pos 0 ≤ℤ row.now.day }
    requires last { row.now.day ≤ℤ pos last_day }
    requires amount { IsSmall row.now.amount }
    requires whole { IsWholeInAsset (declarations decls.now) row.now.asset row.now.amount }
    ensures ok { OnOk result (AppendsPositionLine (declarations decls.now) row.now
        out.old.items out.new.items) }
    ensures err { OnErr result (AppendsPartOfPositionLine (declarations decls.now) row.now
        out.old.items out.new.items) }
{
    let amount = amount_in_asset(decls, row.asset, &row.amount);
    match decls.origin {
        None => {
            let day = Piece::Number {
                mantissa: row.day as i128,
                scale: 0,
            };
            append_line(alloc, out, decls, day, row, amount)
        }
        Some(origin) => {
            let date = date_of(origin, row.day);
            append_line(alloc, out, decls, Piece::Words(&date), row, amount)
        }
    }
}
