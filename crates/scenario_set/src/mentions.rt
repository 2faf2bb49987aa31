//! What a row says, as far as a further row could contradict it.

ghost use Rattle.std.specs.Prelude.{◌≡◌};
ghost use Rattle.fixing_files.specs.Rows.{same_value};

use term_model::Value;

/// The number of a record, and the value that it says.
#[derive(Clone, Copy, Debug, PartialEq, Eq, Drop)]
pub struct Mention {
    pub number: u32,
    pub value: Value,
}

impl Mention {
    /// Whether it says this value.
    pub fn says(&self, value: Value) -> bool
        ensures { result ≡ same_value value self.now.value }
    {
        value == self.value
    }
}
