//! The texts of expressions, for every leaf that says how what is observed is written.

ghost use Rattle.std.specs.Prelude.{◌≡◌, ◌≤◌, ◌+◌, ◌++◌, List, OnOk, codes, ℕ, ℤ};
ghost use Rattle.term_model.specs.Terms.{expression};
ghost use Rattle.term_model.specs.Sizes.{height};
ghost use Rattle.contract_print.specs.TermTexts.{◌⊕◌, bound_name, expr_text, last_text, last_two_text, mode_text, number_text};
ghost use Rattle.contract_grammar.specs.Writable.{IsWritable};

use crate::pieces::{append, append_bound_name, append_number};
use crate::words::{
    comparison_mark, connective_mark, mode_word, operation_mark, operation_opening,
};
use decimal::{Mode, NoMemory, write};
use std::alloc::Global;
use term_model::Expr;

/// How what is observed is written: the text of a label's number and an offset. Contracts write
/// `obs(NAME, offset)`; another language over the same expressions writes its own.
pub trait Leaf {
    ghost text: { Self → ℕ → ℤ → List ℕ };

    /// Appends the text of an observable. Where memory runs out, nothing is said of what was
    /// appended.
    fn append_leaf(
        &self,
        alloc: Global,
        out: &mut Vec<u8>,
        label: u32,
        offset: i32,
    ) -> Result<(), NoMemory>
        ensures { OnOk result (out.new.items ≡ out.old.items ++ text self.now label offset) };
}

// A scale, and the comma behind it.
fn append_scale(alloc: Global, out: &mut Vec<u8>, scale: u8) -> Result<(), NoMemory>
    ensures { OnOk result (out.new.items ≡ out.old.items ++ (number_text scale ⊕ codes ", ")) }
{
    append_number(alloc, out, scale as u32)?;
    append(out, b", ")
}

// A mode and a scale, each with the comma behind it.
fn append_rounding(alloc: Global, out: &mut Vec<u8>, mode: Mode, scale: u8) -> Result<(), NoMemory>
    ensures { OnOk result (out.new.items
        ≡ out.old.items ++ (mode_text mode ⊕ codes ", " ⊕ number_text scale ⊕ codes ", ")) }
{
    append(out, mode_word(mode))?;
    append(out, b", ")?;
    append_scale(alloc, out, scale)
}

// What stands before the operand of a widening.
fn append_widening(alloc: Global, out: &mut Vec<u8>, scale: u8) -> Result<(), NoMemory>
    ensures { OnOk result (out.new.items
        ≡ out.old.items ++ (codes "widen(" ⊕ number_text scale ⊕ codes ", ")) }
{
    append(out, b"widen(")?;
    append_scale(alloc, out, scale)
}

// What stands before the body of an accumulation, with the name that it binds.
fn append_binder(alloc: Global, out: &mut Vec<u8>, binders: u32) -> Result<(), NoMemory>
    ensures { OnOk result (out.new.items
        ≡ out.old.items ++ (codes "acc(" ⊕ bound_name binders ⊕ codes ", ")) }
{
    append(out, b"acc(")?;
    append_bound_name(alloc, out, binders)?;
    append(out, b", ")
}

// What stands behind the body of an accumulation: the number of its days between commas.
fn append_count(alloc: Global, out: &mut Vec<u8>, days: u32) -> Result<(), NoMemory>
    ensures { OnOk result (out.new.items
        ≡ out.old.items ++ (codes ", " ⊕ number_text days ⊕ codes ", ")) }
{
    append(out, b", ")?;
    append_number(alloc, out, days)?;
    append(out, b", ")
}

// The last operand of a form, and its closing bracket.
#[cycle(expr)]
fn append_last<L: Leaf>(
    alloc: Global,
    out: &mut Vec<u8>,
    leaf: &L,
    binders: u32,
    e: &Expr,
) -> Result<(), NoMemory>
    requires writable { IsWritable binders (expression e.now) }
    requires low { binders + height (expression e.now) ≤ 1_000 }
    ensures { OnOk result (out.new.items
        ≡ out.old.items ++ last_text (L.text leaf.now) binders (expression e.now)) }
{
    append_expr(alloc, out, leaf, binders, e)?;
    append(out, b")")
}

// The last two operands of a form with what stands between them, and its closing bracket.
#[cycle(expr)]
fn append_last_two<L: Leaf>(
    alloc: Global,
    out: &mut Vec<u8>,
    leaf: &L,
    binders: u32,
    left: &Expr,
    between: &[u8],
    right: &Expr,
) -> Result<(), NoMemory>
    requires left { IsWritable binders (expression left.now) }
    requires right { IsWritable binders (expression right.now) }
    requires left_low { binders + height (expression left.now) ≤ 1_000 }
    requires right_low { binders + height (expression right.now) ≤ 1_000 }
    ensures { OnOk result (out.new.items ≡ out.old.items
        ++ last_two_text (L.text leaf.now) binders (expression left.now) between.now
        (expression right.now)) }
{
    append_expr(alloc, out, leaf, binders, left)?;
    append(out, between)?;
    append_last(alloc, out, leaf, binders, right)
}

// A form of one operand, behind what opens it.
#[cycle(expr)]
fn append_one<L: Leaf>(
    alloc: Global,
    out: &mut Vec<u8>,
    leaf: &L,
    binders: u32,
    opening: &[u8],
    of: &Expr,
) -> Result<(), NoMemory>
    requires writable { IsWritable binders (expression of.now) }
    requires low { binders + height (expression of.now) ≤ 1_000 }
    ensures { OnOk result (out.new.items ≡ out.old.items
        ++ (opening.now ⊕ last_text (L.text leaf.now) binders (expression of.now))) }
{
    append(out, opening)?;
    append_last(alloc, out, leaf, binders, of)
}

// A form of two operands, behind what opens it.
#[cycle(expr)]
fn append_two<L: Leaf>(
    alloc: Global,
    out: &mut Vec<u8>,
    leaf: &L,
    binders: u32,
    opening: &[u8],
    left: &Expr,
    between: &[u8],
    right: &Expr,
) -> Result<(), NoMemory>
    requires left { IsWritable binders (expression left.now) }
    requires right { IsWritable binders (expression right.now) }
    requires left_low { binders + height (expression left.now) ≤ 1_000 }
    requires right_low { binders + height (expression right.now) ≤ 1_000 }
    ensures { OnOk result (out.new.items ≡ out.old.items
        ++ (opening.now ⊕ last_two_text (L.text leaf.now) binders (expression left.now)
        between.now (expression right.now))) }
{
    append(out, opening)?;
    append_last_two(alloc, out, leaf, binders, left, between, right)
}

/// Appends the canonical text of an expression that has so many binders round it. Where memory runs
/// out, nothing is said of what was appended: print into a buffer of its own.
#[cycle(expr)]
pub fn append_expr<L: Leaf>(
    alloc: Global,
    out: &mut Vec<u8>,
    leaf: &L,
    binders: u32,
    e: &Expr,
) -> Result<(), NoMemory>
    requires writable { IsWritable binders (expression e.now) }
    requires low { binders + height (expression e.now) ≤ 1_000 }
    ensures { OnOk result (out.new.items
        ≡ out.old.items ++ expr_text (L.text leaf.now) binders (expression e.now)) }
{
    match e {
        Expr::Lit { mant, scale } => write(alloc, out, *mant, *scale),
        Expr::Yes { value } => append(out, if *value { b"true" } else { b"false" }),
        Expr::Var { back } => append_bound_name(alloc, out, binders - 1 - *back),
        Expr::Obs { label, offset } => leaf.append_leaf(alloc, out, *label, *offset),
        Expr::Neg { of } => append_one(alloc, out, leaf, binders, b"neg(", of),
        Expr::Not { of } => append_one(alloc, out, leaf, binders, b"not(", of),
        Expr::Num { op, left, right } => {
            append(out, operation_opening(*op))?;
            append_last_two(alloc, out, leaf, binders, left, operation_mark(*op), right)
        }
        Expr::Cmp { op, left, right } => append_two(
            alloc,
            out,
            leaf,
            binders,
            b"(",
            left,
            comparison_mark(*op),
            right,
        ),
        Expr::Logic { op, left, right } => append_two(
            alloc,
            out,
            leaf,
            binders,
            b"(",
            left,
            connective_mark(*op),
            right,
        ),
        Expr::Cond { test, yes, no } => {
            append(out, b"if(")?;
            append_expr(alloc, out, leaf, binders, test)?;
            append_two(alloc, out, leaf, binders, b", ", yes, b", ", no)
        }
        Expr::Widen { scale, of } => {
            append_widening(alloc, out, *scale)?;
            append_last(alloc, out, leaf, binders, of)
        }
        Expr::Round { mode, scale, of } => {
            append(out, b"round(")?;
            append_rounding(alloc, out, *mode, *scale)?;
            append_last(alloc, out, leaf, binders, of)
        }
        Expr::Div {
            mode,
            scale,
            top,
            below,
        } => {
            append(out, b"div(")?;
            append_rounding(alloc, out, *mode, *scale)?;
            append_last_two(alloc, out, leaf, binders, top, b", ", below)
        }
        Expr::Acc { body, days, first } => {
            append_binder(alloc, out, binders)?;
            append_expr(alloc, out, leaf, binders + 1, body)?;
            append_count(alloc, out, *days)?;
            append_last(alloc, out, leaf, binders, first)
        }
    }
}
