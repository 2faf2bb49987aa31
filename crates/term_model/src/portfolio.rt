//! Portfolios.

use crate::decls::Decls;
use crate::name::Name;
use crate::terms::Contr;
use indexmap::IndexMap;

/// Declarations, and contracts by name in their order.
#[derive(Drop)]
pub struct Portfolio {
    pub decls: Decls,
    pub contracts: IndexMap<Name, Contr>,
}
