//! The lines of verdicts.

ghost use Rattle.std.specs.Prelude.{◌≡◌, ◌++◌, IfOk, OnOk, OnErr};
ghost use Rattle.decimal.specs.Appending.{AppendsPart};
ghost use Rattle.decimal.specs.Text.{text_of};
ghost use Rattle.time_types.specs.Starts.{start_day};
ghost use Rattle.interval_check.specs.Safety.{IsSmall};
ghost use Rattle.report.specs.Pieces.{piece_text, IsWritable};
ghost use Rattle.report.specs.CheckLines.{rule_text, start_text, verdict_line};

use crate::pieces::{Piece, append, whole};
use contract_check::Facts;
use decimal::NoMemory;
use std::alloc::Global;
use term_model::{Decls, Rule, RuleFault};
use time_types::Start;

/// The word for a rule.
pub fn rule_word(rule: Rule) -> &'static [u8]
    ensures { result.now ≡ rule_text rule }
{
    match rule {
        Rule::Sort => b"sort",
        Rule::Time => b"time",
        Rule::Scale => b"scale",
        Rule::Size => b"size",
        Rule::Bound => b"bound",
    }
}

fn start_piece<'a>(start: Start) -> Piece<'a>
    ensures text { piece_text result ≡ start_text (start_day start) }
    ensures writable { IsWritable result }
{
    match start {
        Start::Always => Piece::Words(b"always"),
        Start::Day { day } => Piece::Number {
            mantissa: day as i128,
            scale: 0,
        },
    }
}

// The total at the portfolio's decimals.
fn total_piece<'a>(decls: &Decls, facts: &Facts) -> Piece<'a>
    requires { IsSmall facts.now.total }
    ensures text { piece_text result ≡ text_of facts.now.total decls.now.amounts }
    ensures writable { IsWritable result }
{
    Piece::Number {
        mantissa: facts.total,
        scale: decls.amounts,
    }
}

/// Appends the line of a contract's verdict: `NAME accepted start S scale N total T horizon H`,
/// with the total at the portfolio's decimals, or `NAME refused RULE node N`. Where memory runs out
/// on the way, a front part of that line may stand in `out` already.
pub fn check_line(
    alloc: Global,
    out: &mut Vec<u8>,
    decls: &Decls,
    name: &[u8],
    verdict: &Result<Facts, RuleFault>,
) -> Result<(), NoMemory>
    requires { IfOk verdict.now (λ facts. IsSmall facts.total) }
    ensures ok { OnOk result (out.new.items
        ≡ out.old.items ++ verdict_line decls.now.amounts name.now verdict.now) }
    ensures err { OnErr result (AppendsPart out.old.items
        (verdict_line decls.now.amounts name.now verdict.now) out.new.items) }
{
    let name = Piece::Words(name);
    match verdict {
        Ok(facts) => {
            let pieces = [
                name,
                Piece::Words(b" accepted start "),
                start_piece(facts.start),
                Piece::Words(b" scale "),
                whole(facts.scale as u32),
                Piece::Words(b" total "),
                total_piece(decls, facts),
                Piece::Words(b" horizon "),
                whole(facts.horizon),
                Piece::Words(b"\n"),
            ];
            append(alloc, out, &pieces)
        }
        Err(fault) => {
            let pieces = [
                name,
                Piece::Words(b" refused "),
                Piece::Words(rule_word(fault.rule)),
                Piece::Words(b" node "),
                whole(fault.node),
                Piece::Words(b"\n"),
            ];
            append(alloc, out, &pieces)
        }
    }
}
