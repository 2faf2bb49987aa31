//! Lines, piece by piece.

ghost use Rattle.std.specs.Prelude.{◌≡◌, ◌++◌, OnOk, OnErr};
ghost use Rattle.std.specs.List.{flat_map};
ghost use Rattle.decimal.specs.Appending.{AppendsPart};
ghost use Rattle.report.specs.Pieces.{AreWritable, IsWritable, number_text, piece_text};

use decimal::{NoMemory, write};
use std::alloc::Global;

/// A piece of a line: some words, or a number with its decimals.
#[derive(Clone, Copy)]
pub enum Piece<'a> {
    Words(&'a [u8]),
    Number { mantissa: i128, scale: u8 },
}

/// A whole number.
pub fn whole<'a>(count: u32) -> Piece<'a>
    ensures text { piece_text result ≡ number_text count }
    ensures writable { IsWritable result }
{
    Piece::Number {
        mantissa: count as i128,
        scale: 0,
    }
}

fn append_piece(alloc: Global, out: &mut Vec<u8>, piece: Piece<'_>) -> Result<(), NoMemory>
    requires { IsWritable piece }
    ensures ok { OnOk result (out.new.items ≡ out.old.items ++ piece_text piece.entry) }
    ensures err { OnErr result (AppendsPart out.old.items (piece_text piece.entry) out.new.items) }
{
    match piece {
        Piece::Words(text) => {
            out.extend_from_slice(text)?;
            Ok(())
        }
        Piece::Number { mantissa, scale } => write(alloc, out, mantissa, scale),
    }
}

/// Appends pieces, one after another; where memory runs out on the way, a front part of them.
pub fn append(alloc: Global, out: &mut Vec<u8>, pieces: &[Piece<'_>]) -> Result<(), NoMemory>
    requires { AreWritable pieces.now }
    ensures ok { OnOk result (out.new.items ≡ out.old.items ++ flat_map piece_text pieces.now) }
    ensures err { OnErr result
        (AppendsPart out.old.items (flat_map piece_text pieces.now) out.new.items) }
{
    for piece in pieces {
        append_piece(alloc, out, *piece)?;
    }
    Ok(())
}
