//! The value of a file's code.

ghost use Rattle.std.specs.Prelude.{◌≡◌, ◌≤◌};
ghost use Rattle.term_model.specs.Declarations.{declarations};
ghost use Rattle.term_model.specs.Environments.{IsAdmitted};
ghost use Rattle.payoff_terms.specs.Code.{payoff_code};
ghost use Rattle.payoff_terms.specs.CodeBooks.{code_book};
ghost use Rattle.payoff_terms.specs.CodeSizes.{height_of_code};
ghost use Rattle.payoff_eval.specs.Questions.{CanBeValued, IsQuestion, asked_on};
ghost use Rattle.payoff_eval.specs.CodeAnswers.{AnswersValue};
ghost use Rattle.payoff_eval.specs.CodeRuns.{amount_in};

use crate::asking::Asking;
use crate::scratch::ValueScratch;
use crate::walk::{Worth, walk};
use fixing_files::{Curve, Fixings, LayeredFixings};
use payoff_terms::CodeFile;
use term_model::{Missing, Setting};

// The amount of an answer.
fn amount_of(found: Result<Worth, Missing>) -> Result<i128, Missing>
    ensures { result ≡ amount_in found }
{
    match found {
        Ok(worth) => Ok(worth.amount),
        Err(missing) => Err(missing),
    }
}

/// What a file's code, which is accepted at the setting, is worth over fixings in two layers:
/// `value` over the map that they are seen as. It takes no memory.
pub fn value_layered(
    file: &CodeFile,
    setting: &Setting,
    fixings: &LayeredFixings<'_>,
    curve: &Curve,
    at: i64,
    from: u32,
    to: u32,
    asset: u32,
    scratch: &mut ValueScratch,
) -> Result<i128, Missing>
    requires code { CanBeValued (code_book file.now) setting.now.days.items }
    requires admitted { IsAdmitted (declarations file.now.decls) fixings.now }
    requires question { IsQuestion (declarations file.now.decls)
        (asked_on curve.now at from to asset) }
    requires room { height_of_code (payoff_code file.now.code) ≤ scratch.old }
    ensures answer { AnswersValue (code_book file.now) setting.now.days.items fixings.now
        (asked_on curve.now at from to asset) result }
    ensures room { scratch.new ≡ scratch.old }
{
    curve.rises();
    let asking = Asking {
        decls: &file.decls,
        setting: setting.days.as_slice(),
        fixings,
        curve,
        today: at,
        from,
        to,
        asset,
    };
    let base = file.decls.start as i64;
    let decimals = file.decls.amounts + 9;
    amount_of(walk(&asking, &mut scratch.names, base, decimals, &file.code))
}

/// What a file's code, which is accepted at the setting, is worth on the day `at` for what `from`
/// owes `to` in an asset, in units of the least decimal of the portfolio's amounts times 10^-9. The
/// base is the start of the file's declarations. A payment to come counts with the factor of the
/// curve at its days from `at` on, one gone by at face value. The value is the same whatever else
/// will be observed. It lacks a place exactly where the code reads one that is not fixed, and then
/// answers the first. It takes no memory.
pub fn value(
    file: &CodeFile,
    setting: &Setting,
    fixings: &Fixings,
    curve: &Curve,
    at: i64,
    from: u32,
    to: u32,
    asset: u32,
    scratch: &mut ValueScratch,
) -> Result<i128, Missing>
    requires code { CanBeValued (code_book file.now) setting.now.days.items }
    requires admitted { IsAdmitted (declarations file.now.decls) fixings.now }
    requires question { IsQuestion (declarations file.now.decls)
        (asked_on curve.now at from to asset) }
    requires room { height_of_code (payoff_code file.now.code) ≤ scratch.old }
    ensures answer { AnswersValue (code_book file.now) setting.now.days.items fixings.now
        (asked_on curve.now at from to asset) result }
    ensures room { scratch.new ≡ scratch.old }
{
    let fixings = LayeredFixings::of(fixings);
    value_layered(file, setting, &fixings, curve, at, from, to, asset, scratch)
}
