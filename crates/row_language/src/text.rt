//! Texts with a name, and the pieces that they are made of.

use crate::row_err::RowErr;
use std::alloc::{AllocError, Global};

/// A text, or a file, with its name.
#[derive(Drop)]
pub struct Named<'a> {
    /// Its name.
    pub name: &'a str,
    /// What it contains.
    pub bytes: Vec<u8>,
}

/// The bytes of this name.
pub fn find<'a>(list: &'a [Named<'_>], name: &str) -> Option<&'a [u8]> {
    list.iter()
        .find(|named| named.name == name)
        .map(|named| named.bytes.as_slice())
}

/// A number in decimal digits.
pub fn number_of(digits: &str) -> Result<u64, RowErr> {
    if digits.starts_with('+') {
        return Err(RowErr::Number);
    }
    digits.parse::<u64>().map_err(|_| RowErr::Number)
}

/// A count, or a place.
pub fn count(word: &str) -> Result<u32, RowErr> {
    match u32::try_from(number_of(word)?) {
        Ok(number) => Ok(number),
        Err(_) => Err(RowErr::Number),
    }
}

/// The first word, and what stands behind the bar after it.
pub fn first_word(words: &str) -> (&str, &str) {
    words.split_once('|').unwrap_or((words, ""))
}

// The byte of two hexadecimal digits.
fn byte_of(digits: &str) -> Option<u8> {
    if digits.starts_with('+') {
        return None;
    }
    u8::from_str_radix(digits, 16).ok()
}

/// The bytes of a piece, in which a backslash and two hexadecimal digits are one byte.
pub fn piece_of(alloc: Global, text: &str) -> Result<Vec<u8>, RowErr> {
    let mut parts = text.split('\\');
    let plain = parts.next().unwrap_or("");
    let mut bytes = plain.as_bytes().to_vec(alloc)?;
    for part in parts {
        push_escaped(&mut bytes, part)?;
    }
    Ok(bytes)
}

// What stands behind a backslash.
fn push_escaped(bytes: &mut Vec<u8>, part: &str) -> Result<(), RowErr> {
    let (digits, plain) = part.split_at_checked(2).ok_or(RowErr::Escape)?;
    let byte = byte_of(digits).ok_or(RowErr::Escape)?;
    bytes.push(byte)?;
    bytes.extend_from_slice(plain.as_bytes())?;
    Ok(())
}

/// `N PIECE`: how many times, and the piece.
pub fn counted(alloc: Global, rest: &str) -> Result<(u64, Vec<u8>), RowErr> {
    let (times, piece) = rest.split_once(' ').ok_or(RowErr::Form)?;
    Ok((number_of(times)?, piece_of(alloc, piece)?))
}

// Appends a piece, with a filling in the place of each `@`.
fn push_filled(bytes: &mut Vec<u8>, piece: &[u8], filling: &[u8]) -> Result<(), AllocError> {
    for byte in piece {
        if *byte == b'@' {
            bytes.extend_from_slice(filling)?;
        } else {
            bytes.push(*byte)?;
        }
    }
    Ok(())
}

/// Appends a piece so many times, with the number of the time, from 0, in the place of each `@`.
pub fn push_repeated(
    alloc: Global,
    bytes: &mut Vec<u8>,
    times: u64,
    piece: &[u8],
) -> Result<(), AllocError> {
    let has_number = piece.contains(&b'@');
    for number in 0..times {
        if has_number {
            let digits = format!(in alloc; "{number}")?;
            push_filled(bytes, piece, digits.as_bytes())?;
        } else {
            bytes.extend_from_slice(piece)?;
        }
    }
    Ok(())
}

/// Wraps bytes so many times into a piece, in which they stand in the place of each `@`.
pub fn wrapped(
    alloc: Global,
    bytes: Vec<u8>,
    times: u64,
    piece: &[u8],
) -> Result<Vec<u8>, AllocError> {
    let mut inner = bytes;
    for _ in 0..times {
        let mut outer = Vec::new(alloc);
        push_filled(&mut outer, piece, &inner)?;
        inner = outer;
    }
    Ok(inner)
}
