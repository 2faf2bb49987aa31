//! What is printed of a run.

use contract_cli::Status;
use row_language::push_output;
use std::alloc::AllocError;

/// Appends the line of a run with its status, and the bytes of its output.
pub fn push_answer(
    out: &mut String,
    line: &str,
    status: Status,
    output: &[u8],
) -> Result<(), AllocError> {
    let number = status.number();
    write!(out, "{line}: {number} {status:?}\n")?;
    push_output(out, output)
}

/// Appends the line of runs over fronts, and their statuses: one line for those that are the same
/// one after another.
pub fn push_statuses(out: &mut String, line: &str, statuses: &[Status]) -> Result<(), AllocError> {
    write!(out, "{line}\n")?;
    let mut first = 0;
    for (length, status) in statuses.iter().enumerate() {
        let next = length.saturating_add(1);
        if statuses.get(next) != Some(status) {
            let number = status.number();
            write!(out, "{first} to {length}: {number} {status:?}\n")?;
            first = next;
        }
    }
    Ok(())
}
