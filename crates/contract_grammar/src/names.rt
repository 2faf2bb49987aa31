//! The names of a text.

/// The sets of names that a text declares.
#[derive(Clone, Copy)]
pub enum NameSet {
    Party,
    Asset,
    Label,
    Template,
    Contract,
}
