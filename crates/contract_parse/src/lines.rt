//! Lines and columns.
ghost use Rattle.std.specs.Prelude.{◌≡◌, ◌≤◌, ◌==◌, length, not, reverse};
ghost use Rattle.std.specs.List.{prefix_len};
ghost use Rattle.term_model.specs.Limits.{longest_file};
ghost use Rattle.contract_parse.specs.Lines.{column_at, line_at};
ghost use Rattle.contract_parse.specs.Cursors.{fault_at};

use contract_grammar::{TextFault, TextKind};

/// The line of a position, from 1.
pub fn line_at(bytes: &[u8], at: usize) -> u32
    requires within { at ≤ length bytes.now }
    requires small { length bytes.now ≤ longest_file }
    ensures { result ≡ line_at bytes.now at }
{
    let before = bytes[..at].iter().filter(|b| **b == b'\n').count();
    1 + before as u32
}

fn last_line_len(bytes: &[u8]) -> usize
    ensures value { result ≡ prefix_len (λ b. not (b == 10)) (reverse bytes.now) }
    ensures within { result ≤ length bytes.now }
{
    bytes.iter().rev().take_while(|b| **b != b'\n').count()
}

/// The column of a position, from 1.
pub fn column_at(bytes: &[u8], at: usize) -> u32
    requires within { at ≤ length bytes.now }
    requires small { length bytes.now ≤ longest_file }
    ensures { result ≡ column_at bytes.now at }
{
    1 + last_line_len(&bytes[..at]) as u32
}

/// The fault of a kind at a position.
pub fn fault_at(bytes: &[u8], kind: TextKind, at: usize) -> TextFault
    requires within { at ≤ length bytes.now }
    requires small { length bytes.now ≤ longest_file }
    ensures { result ≡ fault_at bytes.now kind at }
{
    TextFault {
        kind,
        line: line_at(bytes, at),
        column: column_at(bytes, at),
    }
}
