//! Declarations of labels.
ghost use Rattle.std.specs.Prelude.{◌≡◌, ◌≤◌, ◌<◌, ◌+◌, ◌∷◌, [], IfOk, codes, length, true};
ghost use Rattle.indexmap.specs.IndexMap.{index_map_len, keys};
ghost use Rattle.term_model.specs.Limits.{are_labels, is_label};
ghost use Rattle.contract_grammar.specs.Statements.{Entry, Repeat, label_line};
ghost use Rattle.contract_parse.specs.DeclarationReading.{label_range};
ghost use Rattle.contract_parse.specs.Expecting.{LabelLines, ScaleAt, TheMark, flag_expected, number_label_expected};
ghost use Rattle.contract_parse.specs.Readers.{Declares, PassesAnywhere, Reads, ReadsAhead, ahead_from, behind_word};
ghost use Rattle.contract_grammar.specs.declared.names.NameSet.TheVariants.{Label as LabelSet};

use crate::faults::PartErr;
use crate::readers::{
    after_word, read_bound, read_label_scale, read_new_name, skip_mark, skip_word,
};
use crate::words::{Lookahead, look};
use indexmap::IndexMap;
use std::alloc::Global;
use term_model::{Label, Name};

// What stands behind the name of a number label.
fn read_range(rest: &[u8]) -> Result<(Label, &[u8]), PartErr>
    ensures reads { Reads (PassesAnywhere (λ ps. TheMark (codes ":") ∷ ScaleAt ∷ ps))
        (λ r. label_range r.0) (λ r. r.1.now) rest.now result }
    ensures shorter { IfOk result (λ r. length r.1.now < length rest.now) }
    ensures limits { IfOk result (λ r. is_label r.0 ≡ true) }
{
    let rest = skip_mark(rest, b":")?;
    let (scale, rest) = read_label_scale(rest)?;
    let rest = skip_word(rest, b"in")?;
    let (low, rest) = read_bound(scale, None, rest)?;
    let rest = skip_mark(rest, b"..")?;
    let (high, rest) = read_bound(scale, Some(low), rest)?;
    Ok((Label::Number { scale, low, high }, rest))
}

// A number label behind `num`.
fn read_number_label<'a>(
    alloc: Global,
    labels: &mut IndexMap<Name, Label>,
    rest: &'a [u8],
) -> Result<&'a [u8], PartErr>
    requires { are_labels labels.old.entries ≡ true }
    ensures reads { Reads (Declares LabelSet (keys labels.old)
        (λ r. keys labels.new) number_label_expected)
        (λ r. behind_word (codes "num") (Entry label_line labels.old.entries labels.new.entries))
        (λ r. r.now) rest.now result }
    ensures shorter { IfOk result (λ r. length r.now < length rest.now) }
    ensures few { IfOk result (λ r.
        index_map_len labels.new + length r.now ≤ index_map_len labels.old + length rest.now) }
    ensures limits { IfOk result (λ r. are_labels labels.new.entries ≡ true) }
{
    let (name, rest) = read_new_name(alloc, labels, rest)?;
    let (label, rest) = read_range(rest)?;
    let rest = skip_mark(rest, b";")?;
    labels.insert(name, label)?;
    Ok(rest)
}

// A truth label behind `flag`.
fn read_flag<'a>(
    alloc: Global,
    labels: &mut IndexMap<Name, Label>,
    rest: &'a [u8],
) -> Result<&'a [u8], PartErr>
    requires { are_labels labels.old.entries ≡ true }
    ensures reads { Reads (Declares LabelSet (keys labels.old) (λ r. keys labels.new) flag_expected)
        (λ r. behind_word (codes "flag") (Entry label_line labels.old.entries labels.new.entries))
        (λ r. r.now) rest.now result }
    ensures shorter { IfOk result (λ r. length r.now < length rest.now) }
    ensures few { IfOk result (λ r.
        index_map_len labels.new + length r.now ≤ index_map_len labels.old + length rest.now) }
    ensures limits { IfOk result (λ r. are_labels labels.new.entries ≡ true) }
{
    let (name, rest) = read_new_name(alloc, labels, rest)?;
    let rest = skip_mark(rest, b";")?;
    labels.insert(name, Label::Flag)?;
    Ok(rest)
}

/// The labels that are declared from here on.
pub fn read_labels<'a>(
    alloc: Global,
    ahead: &Lookahead<'a>,
) -> Result<(IndexMap<Name, Label>, Lookahead<'a>), PartErr>
    ensures reads { ReadsAhead (Declares LabelSet [] (λ r. keys r.0) (λ ps. LabelLines ∷ ps))
        (λ r. Repeat (Entry label_line) [] r.0.entries)
        (λ r. ahead_from r.1) (ahead_from ahead.now) result }
    ensures few { IfOk result (λ r.
        index_map_len r.0 + length r.1.after.now ≤ length ahead.now.after.now) }
    ensures limits { IfOk result (λ r. are_labels r.0.entries ≡ true) }
{
    let mut labels = IndexMap::new(alloc);
    let mut ahead = *ahead;
    loop {
        if let Some(after) = after_word(&ahead, b"num") {
            let rest = read_number_label(alloc, &mut labels, after)?;
            ahead = look(rest);
        } else if let Some(after) = after_word(&ahead, b"flag") {
            let rest = read_flag(alloc, &mut labels, after)?;
            ahead = look(rest);
        } else {
            return Ok((labels, ahead));
        }
    }
}
