//! What is tested of the libraries and is no row of `library_rows`: files and sinks that fail in
//! mid-stream, room for names, and calls on terms and numbers of which the proof knows the values.
//! It stands in one crate, since a crate with tests is proved twice.
//!
//! ```text
//! let mut files = MemoryFiles::new(entries, [2].to_vec(alloc)?); // the second read fails
//! ```
//!
//! Promised: nothing to other crates; `rt test` runs the tests.
//! Only tested: all that stands here, since a test that fails breaks no clause.
#![tactic(auto)]

#[cfg(test)]
mod decimals;
#[cfg(test)]
mod edges;
#[cfg(test)]
mod terms;
