//! The lines of values.

ghost use Rattle.std.specs.Prelude.{◌≡◌, ◌≤◌, ◌++◌, OnOk, OnErr};
ghost use Rattle.decimal.specs.Appending.{AppendsPart};
ghost use Rattle.interval_check.specs.Safety.{IsSmall};
ghost use Rattle.report.specs.ValueLines.{value_text};

use crate::pieces::{Piece, append};
use decimal::NoMemory;
use std::alloc::Global;

/// Appends the line of a value: the number `m * 10^-scale` with `scale` decimals, and `-` before it
/// where it is negative. Where memory runs out on the way, a front part of that line may stand in
/// `out` already.
pub fn value_line(alloc: Global, out: &mut Vec<u8>, m: i128, scale: u8) -> Result<(), NoMemory>
    requires size { IsSmall m }
    requires scale { scale ≤ 27 }
    ensures ok { OnOk result (out.new.items ≡ out.old.items ++ value_text m scale) }
    ensures err { OnErr result (AppendsPart out.old.items (value_text m scale) out.new.items) }
{
    let number = Piece::Number { mantissa: m, scale };
    append(alloc, out, &[number, Piece::Words(b"\n")])
}
