//! Files that a caller lends.

ghost use Rattle.std.specs.Prelude.{◌≡◌, option_map};
ghost use Rattle.in_process.specs.Lent.{file_named};

use edge_io::{Files, ReadErr, copy_within, one_more};
use std::alloc::Global;
use std::marker::Model;

/// A file that is lent: a name and bytes, each a pointer and a length to C.
#[repr(C)]
#[derive(Clone, Copy)]
pub struct NamedBytes<'a> {
    /// Its name.
    pub name: &'a [u8],
    /// What it holds.
    pub bytes: &'a [u8],
}

/// Files that are lent. Of those with one name the first counts. They tell what they contain. A
/// read fails if and only if no file has the name, and is then counted.
#[derive(Drop)]
pub struct LentFiles<'a> {
    files: &'a [NamedBytes<'a>],
    missing: u64,
}

impl<'a> Model for LentFiles<'a> {
    ghost use Rattle.in_process.specs.Lent.{LentState};

    ghost Value = { LentState };

    ghost view = { λ lent. record { files = lent.files.now; missing = lent.missing } };
}

impl<'a> LentFiles<'a> {
    /// These files, of which no read has failed.
    pub fn new(files: &'a [NamedBytes<'a>]) -> LentFiles<'a>
        ensures { result ≡ record { files = files.entry.now; missing = 0 } }
    {
        LentFiles { files, missing: 0 }
    }
}

// The first file with this name.
fn find_named<'a, 'b>(files: &'b [NamedBytes<'a>], name: &[u8]) -> Option<&'b NamedBytes<'a>>
    ensures { option_map (λ file. file.now) result ≡ file_named files.now name.now }
{
    files.iter().find(|file| file.name == name)
}

impl Files for LentFiles<'_> {
    ghost use Rattle.in_process.specs.Lent.{contents_in, faults_in};

    ghost contents = { λ lent name. contents_in lent.files name };

    ghost faults = { λ lent name. faults_in lent.files lent.missing name };

    fn read_all(&mut self, alloc: Global, name: &str, max: u64) -> Result<Vec<u8>, ReadErr> {
        match find_named(self.files, name.as_bytes()) {
            Some(file) => copy_within(alloc, file.bytes, max),
            None => {
                self.missing = one_more(self.missing);
                Err(ReadErr::Failed)
            }
        }
    }
}
