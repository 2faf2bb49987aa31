//! What is known of what is observed.

use crate::fixings::Fixings;
use std::marker::Model;
use term_model::Decls;

/// Declarations, and fixings that they admit.
#[derive(Drop)]
pub struct Known<'a> {
    pub decls: &'a Decls,
    pub fixings: &'a Fixings,
}

impl<'a> Model for Known<'a> {
    ghost use Rattle.term_model.specs.Declarations.{declarations};
    ghost use Rattle.term_model.specs.Environments.{IsAdmitted};
    ghost use Rattle.fixing_files.specs.Knowledge.{Knowledge};

    ghost Value = { Knowledge };

    ghost view = { λ k. record { decls = declarations k.decls.now; fixings = k.fixings.now } };

    ghost invariant = { λ k. IsAdmitted (declarations k.decls.now) k.fixings.now };
}
