//! The texts of dates, of value expressions and of code, and whole code files.

ghost use Rattle.std.specs.Prelude.{◌≡◌, ◌≤◌, ◌+◌, ◌++◌, OnOk, OnErr};
ghost use Rattle.term_model.specs.Declarations.{declarations};
ghost use Rattle.term_model.specs.Sizes.{height};
ghost use Rattle.payoff_terms.specs.TemplateDates.{date};
ghost use Rattle.payoff_terms.specs.Dating.{undated};
ghost use Rattle.payoff_terms.specs.Code.{value_expression, payoff_code};
ghost use Rattle.payoff_terms.specs.CodeBooks.{code_book};
ghost use Rattle.payoff_terms.specs.CodeSizes.{height_of_code};
ghost use Rattle.payoff_lang.specs.CodeTexts.{code_text, date_text, declared_for_code, names_text, test_text, transfer_text, value_text};
ghost use Rattle.payoff_lang.specs.CodeCanon.{AppendsCode, code_book_text, code_header_text, code_line_text};
ghost use Rattle.payoff_lang.specs.Numbered.{dates_lent, modelled_at, text_at};
ghost use Rattle.payoff_terms.specs.WritableCode.{IsWritableCode, IsWritableUnder, IsWritableValue};

use crate::numbering::number_dates;
use contract_print::{
    Leaf, append, append_asset_name, append_bound_name, append_decls, append_expr,
    append_label_name, append_name, append_template_name, origin_date,
};
use decimal::{NoMemory, write};
use payoff_terms::{Code, CodeFile, DateExpr, Vx};
use std::alloc::Global;
use term_model::Decls;

// The templates of a date.
fn append_templates(out: &mut Vec<u8>, decls: &Decls, names: &[u32]) -> Result<(), NoMemory>
    ensures { OnOk result (out.new.items
        ≡ out.old.items ++ names_text (declared_for_code (declarations decls.now)) names.now) }
{
    for name in names {
        append(out, b" + ")?;
        append_template_name(out, &decls.templates, *name)?;
    }
    Ok(())
}

// A date.
#[tactic(auto, unfolding(crate::specs::CodeTexts::date_text))]
fn append_date(
    alloc: Global,
    out: &mut Vec<u8>,
    decls: &Decls,
    on: &DateExpr,
) -> Result<(), NoMemory>
    ensures { OnOk result (out.new.items
        ≡ out.old.items ++ date_text (declared_for_code (declarations decls.now)) (date on.now)) }
{
    write(alloc, out, on.days as i128, 0)?;
    append_templates(out, decls, &on.names)
}

// The observables of code: `model(NAME, DATE)`, with the date of an index.
#[derive(Clone, Copy)]
struct Models<'a> {
    decls: &'a Decls,
    dates: &'a [&'a DateExpr],
}

// The date of an index.
fn append_date_at(
    alloc: Global,
    out: &mut Vec<u8>,
    models: &Models,
    index: i32,
) -> Result<(), NoMemory>
    ensures { OnOk result (out.new.items ≡ out.old.items
        ++ text_at (declared_for_code (declarations models.now.decls.now))
        (dates_lent models.now.dates.now) index) }
{
    let Ok(index) = usize::try_from(index) else {
        return Ok(());
    };
    match models.dates.get(index) {
        Some(on) => append_date(alloc, out, models.decls, on),
        None => Ok(()),
    }
}

impl<'a> Leaf for Models<'a> {
    ghost text = { λ m label index.
        modelled_at (declared_for_code (declarations m.decls.now)) (dates_lent m.dates.now)
        label index };

    fn append_leaf(
        &self,
        alloc: Global,
        out: &mut Vec<u8>,
        label: u32,
        offset: i32,
    ) -> Result<(), NoMemory> {
        append(out, b"model(")?;
        append_label_name(out, &self.decls.labels, label)?;
        append(out, b", ")?;
        append_date_at(alloc, out, self, offset)?;
        append(out, b")")
    }
}

// A value expression that has so many binders round it, by the printer of expressions.
fn append_value(
    alloc: Global,
    out: &mut Vec<u8>,
    decls: &Decls,
    binders: u32,
    v: &Vx,
) -> Result<(), NoMemory>
    requires writable { IsWritableValue binders (value_expression v.now) }
    requires low { binders + height (undated (value_expression v.now)) ≤ 1_000 }
    ensures { OnOk result (out.new.items ≡ out.old.items
        ++ value_text (declared_for_code (declarations decls.now)) binders
        (value_expression v.now)) }
{
    let mut dates = Vec::new(alloc);
    let e = number_dates(alloc, v, &mut dates)?;
    let models = Models {
        decls,
        dates: &dates,
    };
    append_expr(alloc, out, &models, binders, &e)
}

// What is paid, by whom and to whom.
fn append_transfer(
    out: &mut Vec<u8>,
    decls: &Decls,
    asset: u32,
    from: u32,
    to: u32,
) -> Result<(), NoMemory>
    ensures { OnOk result (out.new.items ≡ out.old.items
        ++ transfer_text (declared_for_code (declarations decls.now)) asset from to) }
{
    append_asset_name(out, &decls.assets, asset)?;
    append(out, b", ")?;
    append_name(out, &decls.parties, from)?;
    append(out, b", ")?;
    append_name(out, &decls.parties, to)?;
    append(out, b")")
}

// What a loop tests, and up to which date.
#[tactic(auto, unfolding(crate::specs::CodeTexts::test_text))]
fn append_test(
    alloc: Global,
    out: &mut Vec<u8>,
    decls: &Decls,
    binders: u32,
    test: &Vx,
    upto: &DateExpr,
) -> Result<(), NoMemory>
    requires writable { IsWritableValue binders (value_expression test.now) }
    requires low { binders + height (undated (value_expression test.now)) ≤ 1_000 }
    ensures { OnOk result (out.new.items ≡ out.old.items
        ++ test_text (declared_for_code (declarations decls.now)) binders
        (value_expression test.now) (date upto.now)) }
{
    append_value(alloc, out, decls, binders, test)?;
    append(out, b" upto ")?;
    append_date(alloc, out, decls, upto)
}

// Code that has so many binders round it.
fn append_code(
    alloc: Global,
    out: &mut Vec<u8>,
    decls: &Decls,
    binders: u32,
    code: &Code,
) -> Result<(), NoMemory>
    requires writable { IsWritableUnder binders (payoff_code code.now) }
    requires low { binders + height_of_code (payoff_code code.now) ≤ 1_000 }
    ensures { OnOk result (out.new.items ≡ out.old.items
        ++ code_text (declared_for_code (declarations decls.now)) binders (payoff_code code.now)) }
{
    match code {
        Code::None => append(out, b"none"),
        Code::Pay {
            date,
            asset,
            from,
            to,
        } => {
            append(out, b"pay(")?;
            append_date(alloc, out, decls, date)?;
            append(out, b", ")?;
            append_transfer(out, decls, *asset, *from, *to)
        }
        Code::Add { left, right } => {
            append(out, b"add(")?;
            append_code(alloc, out, decls, binders, left)?;
            append(out, b", ")?;
            append_code(alloc, out, decls, binders, right)?;
            append(out, b")")
        }
        Code::Scale { factor, body } => {
            append(out, b"scale(")?;
            append_value(alloc, out, decls, binders, factor)?;
            append(out, b", ")?;
            append_code(alloc, out, decls, binders, body)?;
            append(out, b")")
        }
        Code::Let { bound, body } => {
            append(out, b"let ")?;
            append_bound_name(alloc, out, binders)?;
            append(out, b" = ")?;
            append_value(alloc, out, decls, binders, bound)?;
            append(out, b" in ")?;
            append_code(alloc, out, decls, binders + 1, body)
        }
        Code::LoopIf {
            test,
            upto,
            hit,
            miss,
        } => {
            append(out, b"loop ")?;
            append_test(alloc, out, decls, binders, test, upto)?;
            append(out, b" then ")?;
            append_code(alloc, out, decls, binders, hit)?;
            append(out, b" else ")?;
            append_code(alloc, out, decls, binders, miss)
        }
        Code::Cut { date, body } => {
            append(out, b"cut(")?;
            append_date(alloc, out, decls, date)?;
            append(out, b", ")?;
            append_code(alloc, out, decls, binders, body)?;
            append(out, b")")
        }
    }
}

// The first line.
#[tactic(auto, unfolding(crate::specs::CodeCanon::code_header_text))]
fn append_header(out: &mut Vec<u8>) -> Result<(), NoMemory>
    ensures { OnOk result (out.new.items ≡ out.old.items ++ code_header_text) }
{
    append(out, b"payoff 1;\n")
}

// The line of the code.
fn append_code_line(alloc: Global, out: &mut Vec<u8>, file: &CodeFile) -> Result<(), NoMemory>
    requires { IsWritableCode (code_book file.now).code }
    ensures { OnOk result (out.new.items ≡ out.old.items
        ++ code_line_text (declared_for_code (code_book file.now).declarations)
        (code_book file.now).name (code_book file.now).code) }
{
    append(out, b"code ")?;
    append(out, file.name.text())?;
    append(out, b" = ")?;
    append_code(alloc, out, &file.decls, 0, &file.code)?;
    append(out, b";\n")
}

// A whole code file, with the text of its origin's date.
fn append_file(
    alloc: Global,
    out: &mut Vec<u8>,
    date: &[u8],
    file: &CodeFile,
) -> Result<(), NoMemory>
    requires { IsWritableCode (code_book file.now).code }
    ensures { OnOk result (out.new.items
        ≡ out.old.items ++ code_book_text date.now (code_book file.now)) }
{
    append_header(out)?;
    append_decls(alloc, out, date, &file.decls)?;
    append_code_line(alloc, out, file)
}

/// Appends the canonical text of a code file. The text is made in memory of its own and appended at
/// once: where memory runs out, nothing is appended. Code that a text can stand for may be printed
/// (`laws::printable_is_writable`).
pub fn print_code(alloc: Global, out: &mut Vec<u8>, file: &CodeFile) -> Result<(), NoMemory>
    requires version { (code_book file.now).declarations.version ≡ 1 }
    requires writable { IsWritableCode (code_book file.now).code }
    ensures ok { OnOk result (AppendsCode (code_book file.now) out.old.items out.new.items) }
    ensures err { OnErr result (out.new.items ≡ out.old.items) }
{
    let date = origin_date(&file.decls);
    let mut text = Vec::new(alloc);
    append_file(alloc, &mut text, &date, file)?;
    out.extend_from_slice(&text)?;
    Ok(())
}
