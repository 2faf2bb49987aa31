//! Expressions from texts.
ghost use Rattle.std.specs.Prelude.{◌≡◌, ◌≤◌, ◌<◌, ◌+◌, ◌∷◌, Err, IfOk, OnOk, codes, false, length, max, true};
ghost use Rattle.term_model.specs.Limits.{most_days};
ghost use Rattle.term_model.specs.Terms.{Lit, expression};
ghost use Rattle.term_model.specs.Sizes.{height};
ghost use Rattle.contract_parse.specs.Frames.{PassesAt, an_expression_here, expression_at, names_at, expected_behind_first};
ghost use Rattle.contract_grammar.specs.Judgements.{binder_at, integer_at, mode_at};
ghost use Rattle.contract_grammar.specs.Spelling.{expr, mark, pair, valued, ◌⨟◌};
ghost use Rattle.contract_parse.specs.Expecting.{IntegerAt, LiteralNumber, ModeAt, TheMark, operand_expected, pair_expected};
ghost use Rattle.contract_grammar.specs.Words.{is_number};
ghost use Rattle.contract_parse.specs.Reading.{joined, tok_of};
ghost use Rattle.contract_parse.specs.Heads.{form_at, greatest_depth};
ghost use Rattle.contract_parse.specs.Readers.{Binds, KeepsLeaves, PassesAnywhere, Reads, ReadsAhead, ahead_in, ahead_of, behind_part, behind_sign, behind_word, first_token, name_part, number_part};

use crate::at_once::literal_here;
use crate::faults::PartErr;
use crate::frame::Frame;
use crate::heads::{First, first_here, form_at, greatest_depth};
use crate::judges::{refuse, refuse_at};
use crate::leaves::LeafReader;
use crate::names::back_to;
use crate::readers::{
    read_binder, read_integer, read_literal, read_mode, read_operator, skip_mark,
};
use crate::token::Lexeme;
use crate::words::{from_token, is_name, is_number, next};
use contract_grammar::{Language, Operator, TextKind};
use decimal::{Decimal, Mode, decimal_of};
use std::alloc::Global;
use term_model::{Expr, MOST_DAYS, NumOp, Scope};

fn joined(operator: Operator, left: Box<Expr>, right: Box<Expr>) -> Expr
    ensures { expression result ≡ joined operator (expression left.value) (expression right.value) }
{
    match operator {
        Operator::Arithmetic { op } => Expr::Num { op, left, right },
        Operator::Comparison { op } => Expr::Cmp { op, left, right },
        Operator::Logic { op } => Expr::Logic { op, left, right },
    }
}

fn literal(number: Decimal) -> Expr
    ensures { expression result ≡ Lit number.mant number.scale }
{
    Expr::Lit {
        mant: number.mant,
        scale: number.scale,
    }
}

// The scale behind a mark, in `widen`, `round` and `div`.
#[tactic(auto, using(contract_grammar::proofs::Parts::followed_by))]
fn read_scale<'a>(wanted: &[u8], rest: &'a [u8]) -> Result<(u8, &'a [u8]), PartErr>
    ensures reads { Reads (PassesAnywhere (λ ps. TheMark wanted.now ∷ IntegerAt 27 ∷ ps))
        (λ r. mark wanted.now ⨟ valued (integer_at 27) r.0) (λ r. r.1.now) rest.now result }
{
    let rest = skip_mark(rest, wanted)?;
    let (scale, rest) = read_integer(27, rest)?;
    Ok((scale as u8, rest))
}

// The mode and the scale in `round` and `div`.
#[tactic(auto, using(contract_grammar::proofs::Parts::followed_by))]
fn read_rounding(rest: &[u8]) -> Result<(Mode, u8, &[u8]), PartErr>
    ensures reads { Reads (PassesAnywhere
        (λ ps. TheMark (codes "(") ∷ ModeAt ∷ TheMark (codes ",") ∷ IntegerAt 27 ∷ ps))
        (λ r. mark (codes "(") ⨟ valued mode_at r.0 ⨟ mark (codes ",") ⨟ valued (integer_at 27) r.1)
        (λ r. r.2.now) rest.now result }
{
    let rest = skip_mark(rest, b"(")?;
    let (mode, rest) = read_mode(rest)?;
    let (scale, rest) = read_scale(b",", rest)?;
    Ok((mode, scale, rest))
}

// The name that `acc` binds.
#[tactic(auto, using(contract_grammar::proofs::Parts::followed_by))]
fn read_bound_name(rest: &[u8]) -> Result<(&[u8], &[u8]), PartErr>
    ensures reads { Reads (Binds (λ r. r.0.now) (λ binder ps. TheMark (codes "(") ∷ binder ∷ ps))
        (λ r. mark (codes "(") ⨟ valued binder_at r.0.now) (λ r. r.1.now) rest.now result }
{
    let rest = skip_mark(rest, b"(")?;
    read_binder(rest)
}

// The number of days of `acc`.
#[tactic(auto, using(contract_grammar::proofs::Parts::followed_by))]
fn read_days_back(rest: &[u8]) -> Result<(u32, &[u8]), PartErr>
    ensures reads { Reads (PassesAnywhere (λ ps. TheMark (codes ",") ∷ IntegerAt most_days ∷ ps))
        (λ r. mark (codes ",") ⨟ valued (integer_at most_days) r.0) (λ r. r.1.now) rest.now result }
{
    let rest = skip_mark(rest, b",")?;
    read_integer(MOST_DAYS, rest)
}

// A literal behind its sign.
fn read_negative(rest: &[u8]) -> Result<(Expr, &[u8]), PartErr>
    ensures reads { Reads (PassesAnywhere (λ ps. LiteralNumber true ∷ ps)) (λ r. behind_sign r.0)
        (λ r. r.1.now) rest.now result }
    ensures high { IfOk result (λ r. height (expression r.0) ≡ 1) }
{
    let (number, rest) = read_literal(true, rest)?;
    Ok((literal(number), rest))
}

// An expression in a box.
#[cycle(expr)]
fn read_boxed<'a, L: LeafReader>(
    alloc: Global,
    leaves: &mut L,
    frame: &Frame,
    rest: &'a [u8],
) -> Result<(Box<Expr>, &'a [u8]), PartErr>
    ensures reads { Reads
        (PassesAt frame.now (λ s ps. an_expression_here L.LANGUAGE frame.now ∷ ps))
        (λ r. expression_at (L.leaf leaves.new) frame.now r.0.value)
        (λ r. r.1.now) rest.now result }
    ensures high { IfOk result
        (λ r. height (expression r.0.value) + frame.now.depth ≤ greatest_depth L.LANGUAGE) }
    ensures kept { OnOk result (KeepsLeaves (L.leaf leaves.old) (L.leaf leaves.new)) }
{
    let (of, rest) = read_expr(alloc, leaves, frame, rest)?;
    let of = Box::new(alloc, of)?;
    Ok((of, rest))
}

// The same behind a mark.
#[cycle(expr)]
#[tactic(auto, using(contract_grammar::proofs::Parts::followed_by))]
fn read_behind<'a, L: LeafReader>(
    alloc: Global,
    leaves: &mut L,
    frame: &Frame,
    wanted: &[u8],
    rest: &'a [u8],
) -> Result<(Box<Expr>, &'a [u8]), PartErr>
    ensures reads { Reads (PassesAt frame.now (λ s ps.
        TheMark wanted.now ∷ an_expression_here L.LANGUAGE frame.now ∷ ps))
        (λ r. mark wanted.now ⨟ expression_at (L.leaf leaves.new) frame.now r.0.value)
        (λ r. r.1.now) rest.now result }
    ensures high { IfOk result
        (λ r. height (expression r.0.value) + frame.now.depth ≤ greatest_depth L.LANGUAGE) }
    ensures kept { OnOk result (KeepsLeaves (L.leaf leaves.old) (L.leaf leaves.new)) }
{
    let rest = skip_mark(rest, wanted)?;
    read_boxed(alloc, leaves, frame, rest)
}

// One expression in parentheses.
#[cycle(expr)]
#[tactic(auto, using(contract_grammar::proofs::Parts::followed_by))]
fn read_operand<'a, L: LeafReader>(
    alloc: Global,
    leaves: &mut L,
    frame: &Frame,
    rest: &'a [u8],
) -> Result<(Box<Expr>, &'a [u8]), PartErr>
    ensures reads { Reads (PassesAt frame.now (λ s ps.
        operand_expected (an_expression_here L.LANGUAGE frame.now) ps))
        (λ r. mark (codes "(") ⨟ expression_at (L.leaf leaves.new) frame.now r.0.value
        ⨟ mark (codes ")"))
        (λ r. r.1.now) rest.now result }
    ensures high { IfOk result
        (λ r. height (expression r.0.value) + frame.now.depth ≤ greatest_depth L.LANGUAGE) }
    ensures kept { OnOk result (KeepsLeaves (L.leaf leaves.old) (L.leaf leaves.new)) }
{
    let (of, rest) = read_behind(alloc, leaves, frame, b"(", rest)?;
    let rest = skip_mark(rest, b")")?;
    Ok((of, rest))
}

// What stands behind `neg`.
#[cycle(expr)]
#[tactic(auto, using(contract_grammar::proofs::Parts::followed_by))]
fn read_neg<'a, L: LeafReader>(
    alloc: Global,
    leaves: &mut L,
    frame: &Frame,
    rest: &'a [u8],
) -> Result<(Expr, &'a [u8]), PartErr>
    ensures reads { Reads
        (PassesAt frame.now (expected_behind_first L.LANGUAGE frame.now First.Neg))
        (λ r. behind_word (codes "neg") (expression_at (L.leaf leaves.new) frame.now r.0))
        (λ r. r.1.now) rest.now result }
    ensures high { IfOk result
        (λ r. height (expression r.0) + frame.now.depth ≤ greatest_depth L.LANGUAGE + 1) }
    ensures kept { OnOk result (KeepsLeaves (L.leaf leaves.old) (L.leaf leaves.new)) }
{
    let (of, rest) = read_operand(alloc, leaves, frame, rest)?;
    Ok((Expr::Neg { of }, rest))
}

// What stands behind `not`.
#[cycle(expr)]
#[tactic(auto, using(contract_grammar::proofs::Parts::followed_by))]
fn read_not<'a, L: LeafReader>(
    alloc: Global,
    leaves: &mut L,
    frame: &Frame,
    rest: &'a [u8],
) -> Result<(Expr, &'a [u8]), PartErr>
    ensures reads { Reads
        (PassesAt frame.now (expected_behind_first L.LANGUAGE frame.now First.Not))
        (λ r. behind_word (codes "not") (expression_at (L.leaf leaves.new) frame.now r.0))
        (λ r. r.1.now) rest.now result }
    ensures high { IfOk result
        (λ r. height (expression r.0) + frame.now.depth ≤ greatest_depth L.LANGUAGE + 1) }
    ensures kept { OnOk result (KeepsLeaves (L.leaf leaves.old) (L.leaf leaves.new)) }
{
    let (of, rest) = read_operand(alloc, leaves, frame, rest)?;
    Ok((Expr::Not { of }, rest))
}

// Two expressions in parentheses.
#[cycle(expr)]
#[tactic(auto, using(contract_grammar::proofs::Parts::followed_by))]
fn read_pair<'a, L: LeafReader>(
    alloc: Global,
    leaves: &mut L,
    frame: &Frame,
    rest: &'a [u8],
) -> Result<(Box<Expr>, Box<Expr>, &'a [u8]), PartErr>
    ensures reads { Reads (PassesAt frame.now (λ s ps.
        pair_expected (an_expression_here L.LANGUAGE frame.now)
        (an_expression_here L.LANGUAGE frame.now) ps))
        (λ r. pair (expression_at (L.leaf leaves.new) frame.now r.0.value)
        (expression_at (L.leaf leaves.new) frame.now r.1.value))
        (λ r. r.2.now) rest.now result }
    ensures high { IfOk result
        (λ r. max (height (expression r.0.value)) (height (expression r.1.value)) + frame.now.depth
        ≤ greatest_depth L.LANGUAGE) }
    ensures kept { OnOk result (KeepsLeaves (L.leaf leaves.old) (L.leaf leaves.new)) }
{
    let (left, rest) = read_behind(alloc, leaves, frame, b"(", rest)?;
    let (right, rest) = read_behind(alloc, leaves, frame, b",", rest)?;
    let rest = skip_mark(rest, b")")?;
    Ok((left, right, rest))
}

// What stands behind `min`.
#[cycle(expr)]
#[tactic(auto, using(contract_grammar::proofs::Parts::followed_by))]
fn read_min<'a, L: LeafReader>(
    alloc: Global,
    leaves: &mut L,
    frame: &Frame,
    rest: &'a [u8],
) -> Result<(Expr, &'a [u8]), PartErr>
    ensures reads { Reads
        (PassesAt frame.now (expected_behind_first L.LANGUAGE frame.now First.Min))
        (λ r. behind_word (codes "min") (expression_at (L.leaf leaves.new) frame.now r.0))
        (λ r. r.1.now) rest.now result }
    ensures high { IfOk result
        (λ r. height (expression r.0) + frame.now.depth ≤ greatest_depth L.LANGUAGE + 1) }
    ensures kept { OnOk result (KeepsLeaves (L.leaf leaves.old) (L.leaf leaves.new)) }
{
    let (left, right, rest) = read_pair(alloc, leaves, frame, rest)?;
    let op = NumOp::Min;
    Ok((Expr::Num { op, left, right }, rest))
}

// What stands behind `max`.
#[cycle(expr)]
#[tactic(auto, using(contract_grammar::proofs::Parts::followed_by))]
fn read_max<'a, L: LeafReader>(
    alloc: Global,
    leaves: &mut L,
    frame: &Frame,
    rest: &'a [u8],
) -> Result<(Expr, &'a [u8]), PartErr>
    ensures reads { Reads
        (PassesAt frame.now (expected_behind_first L.LANGUAGE frame.now First.Max))
        (λ r. behind_word (codes "max") (expression_at (L.leaf leaves.new) frame.now r.0))
        (λ r. r.1.now) rest.now result }
    ensures high { IfOk result
        (λ r. height (expression r.0) + frame.now.depth ≤ greatest_depth L.LANGUAGE + 1) }
    ensures kept { OnOk result (KeepsLeaves (L.leaf leaves.old) (L.leaf leaves.new)) }
{
    let (left, right, rest) = read_pair(alloc, leaves, frame, rest)?;
    let op = NumOp::Max;
    Ok((Expr::Num { op, left, right }, rest))
}

// What stands behind a parenthesis.
#[cycle(expr)]
#[tactic(auto, using(contract_grammar::proofs::Parts::followed_by))]
fn read_infix<'a, L: LeafReader>(
    alloc: Global,
    leaves: &mut L,
    frame: &Frame,
    rest: &'a [u8],
) -> Result<(Expr, &'a [u8]), PartErr>
    ensures reads { Reads
        (PassesAt frame.now (expected_behind_first L.LANGUAGE frame.now First.Open))
        (λ r. behind_part (mark (codes "(")) (expression_at (L.leaf leaves.new) frame.now r.0))
        (λ r. r.1.now) rest.now result }
    ensures high { IfOk result
        (λ r. height (expression r.0) + frame.now.depth ≤ greatest_depth L.LANGUAGE + 1) }
    ensures kept { OnOk result (KeepsLeaves (L.leaf leaves.old) (L.leaf leaves.new)) }
{
    let (left, rest) = read_boxed(alloc, leaves, frame, rest)?;
    let (operator, rest) = read_operator(rest)?;
    let (right, rest) = read_boxed(alloc, leaves, frame, rest)?;
    let rest = skip_mark(rest, b")")?;
    Ok((joined(operator, left, right), rest))
}

// What stands behind `if`.
#[cycle(expr)]
#[tactic(auto, using(contract_grammar::proofs::Parts::followed_by))]
fn read_choice<'a, L: LeafReader>(
    alloc: Global,
    leaves: &mut L,
    frame: &Frame,
    rest: &'a [u8],
) -> Result<(Expr, &'a [u8]), PartErr>
    ensures reads { Reads (PassesAt frame.now (expected_behind_first L.LANGUAGE frame.now First.If))
        (λ r. behind_word (codes "if") (expression_at (L.leaf leaves.new) frame.now r.0))
        (λ r. r.1.now) rest.now result }
    ensures high { IfOk result
        (λ r. height (expression r.0) + frame.now.depth ≤ greatest_depth L.LANGUAGE + 1) }
    ensures kept { OnOk result (KeepsLeaves (L.leaf leaves.old) (L.leaf leaves.new)) }
{
    let (test, rest) = read_behind(alloc, leaves, frame, b"(", rest)?;
    let (yes, rest) = read_behind(alloc, leaves, frame, b",", rest)?;
    let (no, rest) = read_behind(alloc, leaves, frame, b",", rest)?;
    let rest = skip_mark(rest, b")")?;
    Ok((Expr::Cond { test, yes, no }, rest))
}

// What stands behind `widen`.
#[cycle(expr)]
#[tactic(auto, using(contract_grammar::proofs::Parts::followed_by))]
fn read_widen<'a, L: LeafReader>(
    alloc: Global,
    leaves: &mut L,
    frame: &Frame,
    rest: &'a [u8],
) -> Result<(Expr, &'a [u8]), PartErr>
    ensures reads { Reads
        (PassesAt frame.now (expected_behind_first L.LANGUAGE frame.now First.Widen))
        (λ r. behind_word (codes "widen") (expression_at (L.leaf leaves.new) frame.now r.0))
        (λ r. r.1.now) rest.now result }
    ensures high { IfOk result
        (λ r. height (expression r.0) + frame.now.depth ≤ greatest_depth L.LANGUAGE + 1) }
    ensures kept { OnOk result (KeepsLeaves (L.leaf leaves.old) (L.leaf leaves.new)) }
{
    let (scale, rest) = read_scale(b"(", rest)?;
    let (of, rest) = read_behind(alloc, leaves, frame, b",", rest)?;
    let rest = skip_mark(rest, b")")?;
    Ok((Expr::Widen { scale, of }, rest))
}

// What stands behind `round`.
#[cycle(expr)]
#[tactic(auto, using(contract_grammar::proofs::Parts::followed_by))]
fn read_round<'a, L: LeafReader>(
    alloc: Global,
    leaves: &mut L,
    frame: &Frame,
    rest: &'a [u8],
) -> Result<(Expr, &'a [u8]), PartErr>
    ensures reads { Reads
        (PassesAt frame.now (expected_behind_first L.LANGUAGE frame.now First.Round))
        (λ r. behind_word (codes "round") (expression_at (L.leaf leaves.new) frame.now r.0))
        (λ r. r.1.now) rest.now result }
    ensures high { IfOk result
        (λ r. height (expression r.0) + frame.now.depth ≤ greatest_depth L.LANGUAGE + 1) }
    ensures kept { OnOk result (KeepsLeaves (L.leaf leaves.old) (L.leaf leaves.new)) }
{
    let (mode, scale, rest) = read_rounding(rest)?;
    let (of, rest) = read_behind(alloc, leaves, frame, b",", rest)?;
    let rest = skip_mark(rest, b")")?;
    Ok((Expr::Round { mode, scale, of }, rest))
}

// What stands behind `div`.
#[cycle(expr)]
#[tactic(auto, using(contract_grammar::proofs::Parts::followed_by))]
fn read_div<'a, L: LeafReader>(
    alloc: Global,
    leaves: &mut L,
    frame: &Frame,
    rest: &'a [u8],
) -> Result<(Expr, &'a [u8]), PartErr>
    ensures reads { Reads
        (PassesAt frame.now (expected_behind_first L.LANGUAGE frame.now First.Div))
        (λ r. behind_word (codes "div") (expression_at (L.leaf leaves.new) frame.now r.0))
        (λ r. r.1.now) rest.now result }
    ensures high { IfOk result
        (λ r. height (expression r.0) + frame.now.depth ≤ greatest_depth L.LANGUAGE + 1) }
    ensures kept { OnOk result (KeepsLeaves (L.leaf leaves.old) (L.leaf leaves.new)) }
{
    let (mode, scale, rest) = read_rounding(rest)?;
    let (top, rest) = read_behind(alloc, leaves, frame, b",", rest)?;
    let (below, rest) = read_behind(alloc, leaves, frame, b",", rest)?;
    let rest = skip_mark(rest, b")")?;
    Ok((
        Expr::Div {
            mode,
            scale,
            top,
            below,
        },
        rest,
    ))
}

// What stands behind `acc`: the body, in which the name is bound, comes before the start.
#[cycle(expr)]
#[tactic(auto, using(contract_grammar::proofs::Parts::followed_by))]
fn read_acc<'a, L: LeafReader>(
    alloc: Global,
    leaves: &mut L,
    frame: &Frame,
    rest: &'a [u8],
) -> Result<(Expr, &'a [u8]), PartErr>
    requires { length (names_at frame.now) < frame.now.depth }
    ensures reads { Reads
        (PassesAt frame.now (expected_behind_first L.LANGUAGE frame.now First.Acc))
        (λ r. behind_word (codes "acc") (expression_at (L.leaf leaves.new) frame.now r.0))
        (λ r. r.1.now) rest.now result }
    ensures high { IfOk result
        (λ r. height (expression r.0) + frame.now.depth ≤ greatest_depth L.LANGUAGE + 1) }
    ensures kept { OnOk result (KeepsLeaves (L.leaf leaves.old) (L.leaf leaves.new)) }
{
    let (name, rest) = read_bound_name(rest)?;
    let bound = Scope::Bound {
        held: name,
        outer: frame.bound,
    };
    let inner = Frame {
        decls: frame.decls,
        bound: &bound,
        depth: frame.depth,
    };
    let (body, rest) = read_behind(alloc, leaves, &inner, b",", rest)?;
    let (days, rest) = read_days_back(rest)?;
    let (first, rest) = read_behind(alloc, leaves, frame, b",", rest)?;
    let rest = skip_mark(rest, b")")?;
    Ok((Expr::Acc { body, days, first }, rest))
}

// What stands behind the first token.
#[cycle(expr)]
fn read_behind_first<'a, L: LeafReader>(
    first: First,
    alloc: Global,
    leaves: &mut L,
    frame: &Frame,
    rest: &'a [u8],
) -> Result<(Expr, &'a [u8]), PartErr>
    requires shallow { frame.now.depth ≤ greatest_depth L.LANGUAGE }
    requires room { length (names_at frame.now) < frame.now.depth }
    ensures reads { Reads (PassesAt frame.now (expected_behind_first L.LANGUAGE frame.now first))
        (λ r. behind_part (first_token L.LANGUAGE first)
        (expression_at (L.leaf leaves.new) frame.now r.0))
        (λ r. r.1.now) rest.now result }
    ensures high { IfOk result
        (λ r. height (expression r.0) + frame.now.depth ≤ greatest_depth L.LANGUAGE + 1) }
    ensures kept { OnOk result (KeepsLeaves (L.leaf leaves.old) (L.leaf leaves.new)) }
{
    match first {
        First::True => Ok((Expr::Yes { value: true }, rest)),
        First::False => Ok((Expr::Yes { value: false }, rest)),
        First::Minus => read_negative(rest),
        First::Open => read_infix(alloc, leaves, frame, rest),
        First::Obs => leaves.read_leaf(alloc, frame.decls, rest),
        First::Neg => read_neg(alloc, leaves, frame, rest),
        First::Not => read_not(alloc, leaves, frame, rest),
        First::Min => read_min(alloc, leaves, frame, rest),
        First::Max => read_max(alloc, leaves, frame, rest),
        First::If => read_choice(alloc, leaves, frame, rest),
        First::Widen => read_widen(alloc, leaves, frame, rest),
        First::Round => read_round(alloc, leaves, frame, rest),
        First::Div => read_div(alloc, leaves, frame, rest),
        First::Acc => read_acc(alloc, leaves, frame, rest),
    }
}

// A number that stands in a frame.
fn read_number<'a>(
    language: Language,
    frame: &Frame,
    token: &Lexeme<'a>,
    after: &'a [u8],
) -> Result<(Expr, &'a [u8]), PartErr>
    requires { is_number (tok_of token.now) ≡ true }
    ensures reads { ReadsAhead
        (PassesAt frame.now (λ s ps. an_expression_here language frame.now ∷ ps))
        (λ r. number_part r.0)
        (λ r. ahead_in r.1.now) (ahead_of token.now after.now) result }
    ensures high { IfOk result
        (λ r. height (expression r.0) + frame.now.depth ≤ greatest_depth language) }
{
    let Some(number) = decimal_of(token.text) else {
        return Err(refuse(TextKind::Number, token));
    };
    if frame.depth >= greatest_depth(language) {
        return Err(refuse(TextKind::Deep, token));
    }
    Ok((literal(number), after))
}

// A bound name that stands in a frame, where no number and no form does.
fn read_name<'a>(
    language: Language,
    frame: &Frame,
    token: &Lexeme<'a>,
    after: &'a [u8],
) -> Result<(Expr, &'a [u8]), PartErr>
    requires no_number { is_number (tok_of token.now) ≡ false }
    requires no_form { form_at language (tok_of token.now) ≡ Err TextKind.Syntax }
    ensures reads { ReadsAhead
        (PassesAt frame.now (λ s ps. an_expression_here language frame.now ∷ ps))
        (λ r. name_part (names_at frame.now) r.0)
        (λ r. ahead_in r.1.now) (ahead_of token.now after.now) result }
    ensures high { IfOk result
        (λ r. height (expression r.0) + frame.now.depth ≤ greatest_depth language) }
{
    if !is_name(token) {
        return Err(refuse(TextKind::Syntax, token));
    }
    if frame.depth >= greatest_depth(language) {
        return Err(refuse(TextKind::Deep, token));
    }
    match back_to(frame.bound, token.text) {
        Some(back) => Ok((Expr::Var { back }, after)),
        None => Err(refuse(TextKind::Unknown, token)),
    }
}

// An expression that begins with any token, or the fault of one that begins none.
#[cycle(expr)]
#[inline(never)]
fn read_any_expr<'a, L: LeafReader>(
    alloc: Global,
    leaves: &mut L,
    frame: &Frame,
    rest: &'a [u8],
) -> Result<(Expr, &'a [u8]), PartErr>
    ensures reads { Reads
        (PassesAt frame.now (λ s ps. an_expression_here L.LANGUAGE frame.now ∷ ps))
        (λ r. expression_at (L.leaf leaves.new) frame.now r.0)
        (λ r. r.1.now) rest.now result }
    ensures high { IfOk result
        (λ r. height (expression r.0) + frame.now.depth ≤ greatest_depth L.LANGUAGE) }
    ensures kept { OnOk result (KeepsLeaves (L.leaf leaves.old) (L.leaf leaves.new)) }
{
    let language = L::LANGUAGE;
    if frame.depth < greatest_depth(language) {
        if let Some((number, after)) = literal_here(rest) {
            return Ok((literal(number), after));
        }
    }
    let (token, after) = next(rest);
    if is_number(&token) {
        return read_number(language, frame, &token, after);
    }
    match form_at(language, &token) {
        Some(first) => {
            if frame.depth >= greatest_depth(language) {
                return Err(refuse(TextKind::Deep, &token));
            }
            let inner = Frame {
                decls: frame.decls,
                bound: frame.bound,
                depth: frame.depth + 1,
            };
            read_behind_first(first, alloc, leaves, &inner, after)
        }
        None => read_name(language, frame, &token, after),
    }
}

/// An expression that stands in a frame, and the text after it. Its word or its parenthesis mostly
/// begins the text, so that is looked at first.
#[cycle(expr)]
pub fn read_expr<'a, L: LeafReader>(
    alloc: Global,
    leaves: &mut L,
    frame: &Frame,
    rest: &'a [u8],
) -> Result<(Expr, &'a [u8]), PartErr>
    ensures reads { Reads
        (PassesAt frame.now (λ s ps. an_expression_here L.LANGUAGE frame.now ∷ ps))
        (λ r. expression_at (L.leaf leaves.new) frame.now r.0)
        (λ r. r.1.now) rest.now result }
    ensures high { IfOk result
        (λ r. height (expression r.0) + frame.now.depth ≤ greatest_depth L.LANGUAGE) }
    ensures kept { OnOk result (KeepsLeaves (L.leaf leaves.old) (L.leaf leaves.new)) }
{
    let language = L::LANGUAGE;
    let start = from_token(rest);
    let Some((first, after)) = first_here(language, start) else {
        return read_any_expr(alloc, leaves, frame, start);
    };
    if frame.depth >= greatest_depth(language) {
        return Err(refuse_at(TextKind::Deep, start));
    }
    let inner = Frame {
        decls: frame.decls,
        bound: frame.bound,
        depth: frame.depth + 1,
    };
    read_behind_first(first, alloc, leaves, &inner, after)
}
