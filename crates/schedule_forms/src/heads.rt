//! The words with which lines of plans begin.
ghost use Rattle.std.specs.Prelude.{◌≡◌, IfNone, IfSome, None};
ghost use Rattle.contract_grammar.specs.Spelling.{word};
ghost use Rattle.contract_parse.specs.Reading.{tok_of, tokens_ahead};
ghost use Rattle.contract_grammar.specs.Tokens.{tokens};
ghost use Rattle.schedule_forms.specs.PlanHeads.{head_at, word_of};

use contract_parse::{Lookahead, after_word};

/// The word with which a line of plans begins.
#[derive(Clone, Copy)]
pub enum PlanHead {
    Leg,
    Swap,
    Guarded,
}

/// Which of them stands next, and the text after it.
pub fn head_ahead<'a>(ahead: &Lookahead<'a>) -> Option<(PlanHead, &'a [u8])>
    ensures found { IfSome result
        (λ r. word (word_of r.0) (tokens_ahead ahead.now) (tokens r.1.now)) }
    ensures none { IfNone result (head_at (tok_of ahead.now.token) ≡ None) }
    ensures after { IfSome result (λ r. r.1.now ≡ ahead.now.after.now) }
{
    if let Some(after) = after_word(ahead, b"leg") {
        return Some((PlanHead::Leg, after));
    }
    if let Some(after) = after_word(ahead, b"swap") {
        return Some((PlanHead::Swap, after));
    }
    if let Some(after) = after_word(ahead, b"guarded") {
        return Some((PlanHead::Guarded, after));
    }
    None
}
