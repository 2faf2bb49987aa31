//! Rows as most tables have them, read in one pass over their bytes: a declared label, a day, and
//! a value of at most 18 digits, with nothing in quotation marks. Of any other row nothing
//! is said: `records` reads it.

ghost use Rattle.std.specs.Prelude.{◌≡◌, ◌≤◌, IfSome, true};
ghost use Rattle.term_model.specs.Declarations.{declarations};
ghost use Rattle.term_model.specs.Limits.{is_label, is_origin};
ghost use Rattle.term_model.specs.declared.label.Label.TheVariants.{Flag, Number};
ghost use Rattle.fixing_files.specs.PlainRows.{BeginsWithLabel, BeginsWithRow, BeginsWithValue, HasPlainNames};
ghost use Rattle.fixing_files.specs.Steps.{place_of};
ghost use Rattle.fixing_files.specs.Words.{BeginsWithDay};

use crate::numerals::{days_at, mantissa_at};
use crate::records::{Place, day_said, label_named};
use crate::words::{around_comma, behind_byte, behind_end, behind_line, behind_word, is_bare};
use term_model::{Decls, Label, Value};

// The label of this number, where a text begins with its name and a comma.
fn label_of_number<'a>(decls: &Decls, number: u32, text: &'a [u8]) -> Option<(u32, Label, &'a [u8])>
    requires { HasPlainNames (declarations decls.now) }
    ensures { IfSome result (λ r. BeginsWithLabel (declarations decls.now) text.now r.0 r.1 r.2.now) }
{
    let (name, label) = decls.labels.get_index(number as usize)?;
    let behind = behind_word(name.text(), text)?;
    let rest = behind_byte(b',', behind)?;
    Some((number, *label, rest))
}

// The label whose name stands in a text before a comma.
fn label_of_name<'a>(decls: &Decls, text: &'a [u8]) -> Option<(u32, Label, &'a [u8])>
    ensures { IfSome result (λ r. BeginsWithLabel (declarations decls.now) text.now r.0 r.1 r.2.now) }
{
    let (name, rest) = around_comma(text)?;
    if !is_bare(name) {
        return None;
    }
    let (number, label) = label_named(decls, name)?;
    Some((number, label, rest))
}

// The number of the label that is declared behind this one, and of the first behind the last.
fn label_behind(decls: &Decls, number: u32) -> u32 {
    if (number as usize) + 1 < decls.labels.len() {
        number + 1
    } else {
        0
    }
}

// The label that a row begins with. Most rows have that of the row before or the next one.
fn label_at<'a>(decls: &Decls, near: u32, text: &'a [u8]) -> Option<(u32, Label, &'a [u8])>
    requires { HasPlainNames (declarations decls.now) }
    ensures { IfSome result (λ r. BeginsWithLabel (declarations decls.now) text.now r.0 r.1 r.2.now) }
{
    if let Some(found) = label_of_number(decls, near, text) {
        return Some(found);
    }
    if let Some(found) = label_of_number(decls, label_behind(decls, near), text) {
        return Some(found);
    }
    label_of_name(decls, text)
}

// The day whose word stands in a text before a comma.
fn day_of_word(origin: Option<i64>, text: &[u8]) -> Option<(i64, &[u8])>
    requires { is_origin origin ≡ true }
    ensures { IfSome result (λ r. BeginsWithDay origin text.now r.0 r.1.now) }
{
    let (word, rest) = around_comma(text)?;
    if !is_bare(word) {
        return None;
    }
    let day = day_said(origin, word)?;
    Some((day, rest))
}

// The day that stands in a text before a comma, which is most often a number of days.
fn day_at(origin: Option<i64>, text: &[u8]) -> Option<(i64, &[u8])>
    requires { is_origin origin ≡ true }
    ensures { IfSome result (λ r. BeginsWithDay origin text.now r.0 r.1.now) }
{
    if let Some((day, rest)) = days_at(text) {
        return Some((day, rest));
    }
    day_of_word(origin, text)
}

// A number that ends a line, at a scale and within bounds.
fn number_at(scale: u8, low: i128, high: i128, text: &[u8]) -> Option<(Value, &[u8])>
    requires { scale ≤ 18 }
    ensures { IfSome result (λ r. BeginsWithValue (Number scale low high) text.now r.0 r.1.now) }
{
    let (mant, behind) = mantissa_at(scale, text)?;
    if mant < low || high < mant {
        return None;
    }
    let rest = behind_end(behind)?;
    Some((Value::Num { mant }, rest))
}

// A truth that ends a line.
fn truth_at(text: &[u8]) -> Option<(Value, &[u8])>
    ensures { IfSome result (λ r. BeginsWithValue Flag text.now r.0 r.1.now) }
{
    if let Some(rest) = behind_line(b"false", text) {
        return Some((Value::Truth { value: false }, rest));
    }
    let rest = behind_line(b"true", text)?;
    Some((Value::Truth { value: true }, rest))
}

// The value of an observable that ends a line.
fn value_at(label: Label, text: &[u8]) -> Option<(Value, &[u8])>
    requires { is_label label ≡ true }
    ensures { IfSome result (λ r. BeginsWithValue label text.now r.0 r.1.now) }
{
    match label {
        Label::Flag => truth_at(text),
        Label::Number { scale, low, high } => number_at(scale, low, high, text),
    }
}

/// The entry of the row that a text begins with, and the text behind the row. `near` is the number
/// of a label that the row may well have.
pub fn row_at<'a>(decls: &Decls, near: u32, text: &'a [u8]) -> Option<(Place, Value, &'a [u8])>
    requires { HasPlainNames (declarations decls.now) }
    ensures { IfSome result (λ r.
        BeginsWithRow (declarations decls.now) text.now (place_of r.0) r.1 r.2.now) }
{
    let (label, declared, rest) = label_at(decls, near, text)?;
    let (day, rest) = day_at(decls.origin, rest)?;
    let (value, rest) = value_at(declared, rest)?;
    Some((Place { label, day }, value, rest))
}
