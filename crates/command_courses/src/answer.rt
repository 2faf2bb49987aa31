//! What a command answers: the text that a run is to write, and the status with which it then ends.

ghost use Rattle.std.specs.Prelude.{◌≡◌, IfOk};
ghost use Rattle.report.specs.FaultLines.{fault_text};
ghost use Rattle.command_courses.specs.Statuses.{status_of};
ghost use Rattle.command_courses.specs.Stopping.{is_done};

use crate::status::{Status, status_of};
use crate::stop::Stop;
use decimal::NoMemory;
use report::{Fault, fault_line};
use std::alloc::Global;

/// A text, and the status of a run that has written it.
#[derive(Drop)]
pub struct Answer {
    pub status: Status,
    pub text: Vec<u8>,
}

/// The status and the line of a fault, or out of memory.
pub fn fault_answer(alloc: Global, fault: &Fault) -> Result<Answer, NoMemory>
    ensures status { IfOk result (λ answer. answer.status ≡ status_of fault.now) }
    ensures text { IfOk result (λ answer. answer.text.items ≡ fault_text fault.now) }
{
    let mut text = Vec::new(alloc);
    fault_line(alloc, &mut text, fault)?;
    let status = status_of(fault);
    Ok(Answer { status, text })
}

/// The answer of a command that is done, if it has a text.
pub fn done(text: Result<Vec<u8>, Stop>) -> Result<Answer, Stop>
    ensures { result ≡ is_done text }
{
    match text {
        Ok(text) => Ok(Answer {
            status: Status::Done,
            text,
        }),
        Err(stop) => Err(stop),
    }
}
