//! Words that say how many contracts the sample has.

ghost use Rattle.std.specs.Prelude.{◌≤◌};

use decimal::number_up_to;

/// How many contracts the sample has: from 1 to 10,000.
#[derive(Clone, Copy)]
pub struct SampleSize {
    pub contracts: u32,
    pub ghost few: { contracts ≤ 10_000 },
}

impl SampleSize {
    ghost use Rattle.std.specs.Prelude.{◌≡◌, option_map};
    ghost use Rattle.command_words.specs.Words.{sample_size};

    /// The number of a word. There is one exactly where the word is digits with a value of the
    /// range.
    pub fn read(word: &str) -> Option<SampleSize>
        ensures { option_map (λ size. size.contracts) result ≡ sample_size word.now }
    {
        match number_up_to(10_000, word.as_bytes()) {
            Some(contracts) if contracts > 0 => Some(SampleSize { contracts }),
            _ => None,
        }
    }
}
