//! Room for the names round a part of code.

ghost use Rattle.std.specs.Prelude.{◌≡◌, ◌≤◌, ◌<◌, [], IfOk};
ghost use Rattle.term_model.specs.Limits.{most_height_of_code};
ghost use Rattle.payoff_terms.specs.Code.{payoff_code};
ghost use Rattle.payoff_terms.specs.CodeSizes.{height_of_code};

use crate::heights::height_of;
use decimal::NoMemory;
use expr_eval::Scratch;
use payoff_terms::CodeFile;
use std::alloc::Global;
use std::marker::Model;
use term_model::{MOST_COUNTED, MOST_HEIGHT_OF_CODE};

/// Room for the names round a part of code, seen as the number of names that have room. None is
/// bound between two calls.
#[derive(Drop)]
pub struct ValueScratch {
    pub(crate) names: Scratch,
}

impl Model for ValueScratch {
    ghost use Rattle.std.specs.Prelude.{◌≡◌, ℕ, []};

    ghost Value = { ℕ };

    ghost view = { λ s. s.names.spare };

    ghost invariant = { λ s. s.names.entries ≡ [] };
}

// Room for some names.
fn with_room(alloc: Global, spare: usize) -> Result<ValueScratch, NoMemory>
    ensures { IfOk result (λ s. s ≡ spare) }
{
    let names = Scratch::with_room(alloc, spare)?;
    Ok(ValueScratch { names })
}

/// Room for as many names as the height of a file's code, which is no less than the names that are
/// bound round any of its parts. Code higher than a million, which no accepted code is, finds no
/// room.
pub fn value_scratch(alloc: Global, file: &CodeFile) -> Result<ValueScratch, NoMemory>
    ensures { IfOk result (λ room. height_of_code (payoff_code file.now.code) ≤ room) }
{
    let height = height_of(&file.code);
    if height < MOST_COUNTED {
        with_room(alloc, height as usize)
    } else {
        Err(NoMemory)
    }
}

/// Room for as many names as any accepted code can need: none is higher than 400. It looks at no
/// code.
pub fn accepted_scratch(alloc: Global) -> Result<ValueScratch, NoMemory>
    ensures { IfOk result (λ room. room ≡ most_height_of_code) }
{
    with_room(alloc, MOST_HEIGHT_OF_CODE as usize)
}
