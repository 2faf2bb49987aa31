//! Code files.

use crate::code::Code;
use term_model::{Decls, Name};

/// Code with the declarations that it stands on, and its name.
#[derive(Drop)]
pub struct CodeFile {
    pub decls: Decls,
    pub name: Name,
    pub code: Code,
}
