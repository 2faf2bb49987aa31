//! The day that a word asks for.

ghost use Rattle.std.specs.Prelude.{◌≡◌, ◌≤◌, pos};
ghost use Rattle.term_model.specs.Declarations.{declarations};
ghost use Rattle.flow_eval.specs.Readiness.{last_day};
ghost use Rattle.command_courses.specs.Days.{AnswersDay, day_in_range};

use crate::stop::Stop;
use command_words::DayWord;
use fixing_files::{DayFault, place_day};
use report::Fault;
use std::alloc::Global;
use term_model::{Decls, Name};

// A day, where it is none before the start or above the greatest.
fn day_in_range(decls: &Decls, day: Result<i64, DayFault>, greatest: u32) -> Option<i64>
    ensures { result ≡ day_in_range (declarations decls.now) (pos greatest) day }
{
    match day {
        Ok(day) if decls.start as i64 <= day && day <= greatest as i64 => Some(day),
        _ => None,
    }
}

/// The day of a word, from the start to the greatest.
pub fn day_asked(
    alloc: Global,
    decls: &Decls,
    asked: DayWord<'_>,
    greatest: u32,
) -> Result<i64, Stop>
    requires { greatest ≤ last_day }
    ensures { AnswersDay (declarations decls.now) (pos greatest) asked.entry.word.now result }
{
    match day_in_range(decls, place_day(decls.origin, asked.named), greatest) {
        Some(day) => Ok(day),
        None => {
            let word = Name::new(alloc, asked.word.as_bytes())?;
            Err(Stop::Fault(Fault::Day { word }))
        }
    }
}
