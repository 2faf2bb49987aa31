//! The rules of acceptance of payoff code, in their order.

ghost use Rattle.std.specs.Prelude.{◌≤◌, ◌<◌, ◌^◌};
ghost use Rattle.term_model.specs.Declarations.{declarations};
ghost use Rattle.payoff_terms.specs.Code.{payoff_code};
ghost use Rattle.payoff_terms.specs.CodeSizes.{height_of_code, nodes_of_code};
ghost use Rattle.payoff_check.specs.CodeChecks.{IsCheckedCode};

use crate::bound_rule::bounds;
use crate::scale_rule::scales;
use crate::size_rule::sizes;
use crate::sort_rule::sorts;
use payoff_terms::CodeFile;
use std::alloc::Global;
use term_model::{CheckErr, Setting};

/// What is said of accepted code.
#[derive(Clone, Copy, Debug, PartialEq, Eq)]
pub struct CodeFacts {
    /// The number of decimals of its values.
    pub scale: u8,
    /// The most that it is worth in size, whatever is observed and on whatever day, in units of its
    /// scale.
    pub total: i128,
}

/// Whether code is accepted at a setting, and what is said of it then. Where it is not, the answer
/// has the first rule that fails and the first node at which it does. The rules are tried on sorts,
/// scales, sizes and bounds, in this order; there is none on times. A template that the setting has
/// no number for counts no days.
pub fn check_code(alloc: Global, file: &CodeFile, setting: &Setting) -> Result<CodeFacts, CheckErr>
    requires low { height_of_code (payoff_code file.now.code) ≤ 1_000 }
    requires small { nodes_of_code (payoff_code file.now.code) < 2 ^ 32 }
    ensures { IsCheckedCode (declarations file.now.decls) setting.now.days.items
        (payoff_code file.now.code) result }
{
    sorts(alloc, &file.decls, setting, &file.code)?;
    let scale = scales(alloc, &file.decls, setting, &file.code)?;
    sizes(&file.decls, setting, &file.code)?;
    let total = bounds(alloc, &file.decls, setting, &file.code)?;
    Ok(CodeFacts { scale, total })
}
