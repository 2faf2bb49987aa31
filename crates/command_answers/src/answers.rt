//! What a command answers to the bytes of its files.

ghost use Rattle.command_words.specs.Words.{requested_by};
ghost use Rattle.command_courses.specs.Inputs.{bytes_of};
ghost use Rattle.command_courses.specs.Stopping.{Goes, GoesDone};
ghost use Rattle.command_answers.specs.Courses.{course_of, sample_course};

use command_courses::{Answer, Inputs, Stop, done};
use command_words::{Request, SampleSize};
use flow_commands::{flows_text, positions_text, settlement_text};
use lifecycle_commands::{advance_text, novate_text};
use sample::summary;
use std::alloc::Global;
use text_commands::{check_text, expand_text, migrated_text, payoff_text};
use valuation_commands::{scenarios_text, value_text};

// The summary of the sample of so many contracts.
fn sample_text(alloc: Global, size: SampleSize) -> Result<Vec<u8>, Stop>
    ensures { GoesDone (sample_course size.contracts) result }
{
    let text = summary(alloc, size.contracts)?;
    Ok(text)
}

/// What a command answers to its files: what it tells at the end of its course, or the fault of the
/// first stage that stops it, or out of memory.
pub fn answer_request(
    alloc: Global,
    request: &Request<'_>,
    inputs: Inputs<'_>,
) -> Result<Answer, Stop>
    ensures { Goes (course_of (requested_by request.now) (bytes_of inputs.entry.files.now)) result }
{
    match request {
        Request::Check { .. } => check_text(alloc, inputs),
        Request::Flows(asked) => done(flows_text(alloc, asked, inputs)),
        Request::Advance(asked) => done(advance_text(alloc, asked, inputs)),
        Request::Payoff(asked) => done(payoff_text(alloc, asked, inputs)),
        Request::Value(asked) => done(value_text(alloc, asked, inputs)),
        Request::Migrate { .. } => done(migrated_text(alloc, inputs)),
        Request::Expand { .. } => done(expand_text(alloc, inputs)),
        Request::Sample(size) => done(sample_text(alloc, *size)),
        Request::Positions(asked) => done(positions_text(alloc, asked, inputs)),
        Request::Settle(asked) => done(settlement_text(alloc, asked, inputs)),
        Request::Novate(asked) => done(novate_text(alloc, asked, inputs)),
        Request::Scenarios(asked) => done(scenarios_text(alloc, asked, inputs)),
    }
}
