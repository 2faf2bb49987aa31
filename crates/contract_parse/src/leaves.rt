//! How the observables of a language are read.
ghost use Rattle.std.specs.Prelude.{◌≡◌, IfOk, OnOk};
ghost use Rattle.term_model.specs.Terms.{expression};
ghost use Rattle.term_model.specs.Sizes.{height};
ghost use Rattle.contract_grammar.specs.Names.{DeclaredNames};
ghost use Rattle.contract_grammar.specs.Spelling.{Leaf, obs_leaf};
ghost use Rattle.contract_parse.specs.Expecting.{leaf_expected};
ghost use Rattle.contract_parse.specs.Readers.{KeepsLeaves, Passes, Reads, behind_leaf_word};
ghost use Rattle.contract_grammar.specs.declared.terms.Language.{Language};

use crate::faults::PartErr;
use crate::readers::{read_offset, read_use_of_map, skip_mark};
use contract_grammar::Language;
use std::alloc::Global;
use term_model::{Decls, Expr};

/// How the observables of a language are read, and what is kept of them beside the expression.
/// Contracts write `obs(NAME, offset)`; another language over the same expressions writes its own.
pub trait LeafReader {
    ghost LANGUAGE: { Language };

    /// The part of an observable, by its label and its offset and by what is kept.
    ghost leaf: { Self → DeclaredNames → Leaf };

    /// The language, which has the word and the greatest depth.
    const LANGUAGE: Language;

    /// What stands behind the word of an observable.
    fn read_leaf<'a>(
        &mut self,
        alloc: Global,
        decls: &Decls,
        rest: &'a [u8],
    ) -> Result<(Expr, &'a [u8]), PartErr>
        ensures reads { Reads (Passes decls.now (λ s ps. leaf_expected s LANGUAGE ps))
            (λ r. behind_leaf_word LANGUAGE (leaf self.new) decls.now r.0)
            (λ r. r.1.now) rest.now result }
        ensures high { IfOk result (λ r. height (expression r.0) ≡ 1) }
        ensures kept { OnOk result (KeepsLeaves (leaf self.old) (leaf self.new)) };
}

/// The observables of contracts, of which nothing more is kept.
#[derive(Clone, Copy)]
pub struct Observables;

impl LeafReader for Observables {
    ghost LANGUAGE = { Language.Contracts };

    ghost leaf = { λ _ s. obs_leaf s };

    const LANGUAGE: Language = Language::Contracts;

    fn read_leaf<'a>(
        &mut self,
        _alloc: Global,
        decls: &Decls,
        rest: &'a [u8],
    ) -> Result<(Expr, &'a [u8]), PartErr> {
        let rest = skip_mark(rest, b"(")?;
        let (label, rest) = read_use_of_map(&decls.labels, rest)?;
        let rest = skip_mark(rest, b",")?;
        let (offset, rest) = read_offset(rest)?;
        let rest = skip_mark(rest, b")")?;
        Ok((Expr::Obs { label, offset }, rest))
    }
}
