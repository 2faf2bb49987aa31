//! Bytes as they are printed.

use std::alloc::AllocError;

// Appends a byte: one that is no ASCII character that can be seen, and a backslash, as a backslash
// and two hexadecimal digits.
fn push_byte(out: &mut String, byte: u8) -> Result<(), AllocError> {
    if byte == b' ' || (byte.is_ascii_graphic() && byte != b'\\') {
        out.push(char::from(byte))
    } else {
        write!(out, "\\{byte:02x}")
    }
}

// Appends a line of the bytes, or what stands behind their last line feed.
fn push_piece(out: &mut String, piece: &[u8]) -> Result<(), AllocError> {
    let (mark, bytes) = match piece.split_last() {
        Some((b'\n', line)) => ("|", line),
        _ => ("+", piece),
    };
    out.push_str(mark)?;
    if !bytes.is_empty() {
        out.push_str(" ")?;
    }
    for byte in bytes {
        push_byte(out, *byte)?;
    }
    out.push_str("\n")
}

/// Appends bytes, line by line.
pub fn push_output(out: &mut String, bytes: &[u8]) -> Result<(), AllocError> {
    for piece in bytes.split_inclusive(|byte| *byte == b'\n') {
        push_piece(out, piece)?;
    }
    Ok(())
}
