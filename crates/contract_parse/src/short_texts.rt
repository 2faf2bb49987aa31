//! Texts that are short enough for their lines to be counted.
ghost use Rattle.std.specs.Prelude.{◌≤◌, length};
ghost use Rattle.term_model.specs.Limits.{longest_file};

use crate::faults::{ParseErr, PartErr};
use crate::lines::fault_at;

/// A text of at most 16 MiB.
#[derive(Clone, Copy)]
pub struct ShortText<'a> {
    pub bytes: &'a [u8],
    pub ghost short: { length bytes.now ≤ longest_file },
}

impl<'a> ShortText<'a> {
    ghost use Rattle.std.specs.Prelude.{◌≡◌};
    ghost use Rattle.contract_parse.specs.Cursors.{fault_of};

    /// What is told of a part of the text that was not read.
    pub fn fault_of(self, error: PartErr) -> ParseErr
        ensures { result ≡ fault_of self.entry.bytes.now error }
    {
        match error {
            PartErr::Refused(refusal) => {
                let at = self.bytes.len().saturating_sub(refusal.left);
                ParseErr::Text(fault_at(self.bytes, refusal.kind, at))
            }
            PartErr::NoMemory => ParseErr::NoMemory,
        }
    }
}
