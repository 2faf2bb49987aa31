//! The bytes of a command's files.

ghost use Rattle.std.specs.Prelude.{◌≡◌, ◌≤◌, length};
ghost use Rattle.term_model.specs.Limits.{longest_file};
ghost use Rattle.command_words.specs.Arguments.{given_text};
ghost use Rattle.command_courses.specs.FixingTables.{IsShortTable};
ghost use Rattle.command_courses.specs.Inputs.{AreShort, bytes_of, file_at, table_if_named};

// The bytes of the file at an index, none where there is none.
fn file_at(files: &[Vec<u8>], index: usize) -> &[u8]
    ensures { result.now ≡ file_at (bytes_of files.now) index }
{
    match files.get(index) {
        Some(bytes) => bytes.as_slice(),
        None => &[],
    }
}

/// The files of a command in their order, none of them longer than 16,777,216 bytes.
#[derive(Clone, Copy)]
pub struct Inputs<'a> {
    pub files: &'a [Vec<u8>],
    pub ghost short: { AreShort (bytes_of files.now) },
}

impl<'a> Inputs<'a> {
    /// The bytes of the file at an index, none where there is none.
    pub fn file(self, index: usize) -> &'a [u8]
        ensures is { result.now ≡ file_at (bytes_of self.entry.files.now) index }
        ensures short { length result.now ≤ longest_file }
    {
        file_at(self.files, index)
    }

    /// The table of the fixings, if the words name one: the second file.
    pub fn table_if_named(self, fixings: Option<&str>) -> Option<&'a [u8]>
        ensures is { given_text result
            ≡ table_if_named (given_text fixings.entry) (bytes_of self.entry.files.now) }
        ensures short { IsShortTable (given_text result) }
    {
        match fixings {
            Some(_) => Some(self.file(1)),
            None => None,
        }
    }
}
