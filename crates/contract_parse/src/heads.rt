//! What a term begins with.
ghost use Rattle.std.specs.Prelude.{◌≡◌, ◌≤◌, ◌<◌, IfSome, length, true};
ghost use Rattle.contract_grammar.specs.Words.{is_mark_kind, is_word_kind};
ghost use Rattle.contract_parse.specs.Heads.{amount_head_at, amount_head_of, first_word, form_at, greatest_depth, head_at, head_of, or_none_begins};
ghost use Rattle.contract_parse.specs.Reading.{tok_of};
ghost use Rattle.contract_parse.specs.AtOnce.{form_here, head_word, word_here};
ghost use Rattle.contract_grammar.specs.declared.terms.Language.{Language};

use crate::token::Lexeme;
use crate::words::{after_byte, after_the_word};
use contract_grammar::{Language, LexemeKind, TextKind};
use term_model::{MOST_HEIGHT, MOST_HEIGHT_OF_CODE};

/// The form of an expression that begins with a word or a mark. The others are numbers and names.
#[derive(Clone, Copy)]
pub enum First {
    True,
    False,
    Minus,
    Open,
    Obs,
    Neg,
    Not,
    Min,
    Max,
    If,
    Widen,
    Round,
    Div,
    Acc,
}

/// What a contract begins with.
#[derive(Clone, Copy)]
pub enum Head {
    Zero,
    Pay,
    Both,
    Scale,
    After,
    Let,
    If,
}

/// What an amount of payoff code begins with.
#[derive(Clone, Copy)]
pub enum AmountHead {
    None,
    Pay,
    Add,
    Scale,
    Let,
    Loop,
    Cut,
}

/// What binds a name.
#[derive(Clone, Copy)]
pub enum Binder {
    Let,
    Acc,
}

/// The greatest depth of a term.
pub fn greatest_depth(language: Language) -> u32
    ensures { result ≡ greatest_depth language }
{
    match language {
        Language::Contracts => MOST_HEIGHT,
        Language::Code => MOST_HEIGHT_OF_CODE,
    }
}

// A form whose word has two or three letters.
fn short_word_at(language: Language, token: &Lexeme<'_>) -> Option<First>
    requires { length token.now.text.now < 4 }
    ensures { is_word_kind token.now.kind ≡ true
        → or_none_begins result ≡ first_word language (tok_of token.now) }
{
    match token.text {
        b"if" => Some(First::If),
        b"neg" => Some(First::Neg),
        b"not" => Some(First::Not),
        b"min" => Some(First::Min),
        b"max" => Some(First::Max),
        b"div" => Some(First::Div),
        b"acc" => Some(First::Acc),
        b"obs" => match language {
            Language::Contracts => Some(First::Obs),
            Language::Code => None,
        },
        _ => None,
    }
}

// A form whose word is longer.
fn long_word_at(language: Language, token: &Lexeme<'_>) -> Option<First>
    requires { 4 ≤ length token.now.text.now }
    ensures { is_word_kind token.now.kind ≡ true
        → or_none_begins result ≡ first_word language (tok_of token.now) }
{
    match token.text {
        b"true" => Some(First::True),
        b"false" => Some(First::False),
        b"widen" => Some(First::Widen),
        b"round" => Some(First::Round),
        b"model" => match language {
            Language::Contracts => None,
            Language::Code => Some(First::Obs),
        },
        _ => None,
    }
}

// A form that a word begins. The length is looked at first: it tells the words apart.
fn word_at(language: Language, token: &Lexeme<'_>) -> Option<First>
    ensures { is_word_kind token.now.kind ≡ true
        → or_none_begins result ≡ first_word language (tok_of token.now) }
{
    if token.text.len() < 4 {
        short_word_at(language, token)
    } else {
        long_word_at(language, token)
    }
}

// A form that a mark begins.
fn mark_at(token: &Lexeme<'_>) -> Option<First>
    ensures { (language : Language) → is_mark_kind token.now.kind ≡ true
        → or_none_begins result ≡ form_at language (tok_of token.now) }
{
    match token.text {
        b"-" => Some(First::Minus),
        b"(" => Some(First::Open),
        _ => None,
    }
}

/// The form of expressions that a token begins, if it is the word or mark of one.
pub fn form_at(language: Language, token: &Lexeme<'_>) -> Option<First>
    ensures { or_none_begins result ≡ form_at language (tok_of token.now) }
{
    match token.kind {
        LexemeKind::Word => word_at(language, token),
        LexemeKind::Mark => mark_at(token),
        _ => None,
    }
}

/// One of the usual words of expressions, or a parenthesis, that begins a text, and the
/// text after it.
#[inline(always)]
pub fn first_here(language: Language, start: &[u8]) -> Option<(First, &[u8])>
    ensures found { IfSome result (λ r. form_here language r.0 start.now r.1.now) }
    ensures shorter { IfSome result (λ r. length r.1.now < length start.now) }
{
    match start {
        [b'(', ..] => Some((First::Open, after_byte(start, b"(")?)),
        [b'o', ..] => match language {
            Language::Contracts => Some((First::Obs, after_the_word(start, b"obs")?)),
            Language::Code => None,
        },
        [b'r', ..] => Some((First::Round, after_the_word(start, b"round")?)),
        [b'm', b'a', ..] => Some((First::Max, after_the_word(start, b"max")?)),
        [b'm', b'i', ..] => Some((First::Min, after_the_word(start, b"min")?)),
        [b'a', ..] => Some((First::Acc, after_the_word(start, b"acc")?)),
        [b'i', ..] => Some((First::If, after_the_word(start, b"if")?)),
        _ => None,
    }
}

fn head_of(token: &Lexeme<'_>) -> Result<Head, TextKind>
    ensures { result ≡ head_of (tok_of token.now) }
{
    if !matches!(token.kind, LexemeKind::Word) {
        return Err(TextKind::Syntax);
    }
    match token.text {
        b"zero" => Ok(Head::Zero),
        b"pay" => Ok(Head::Pay),
        b"both" => Ok(Head::Both),
        b"scale" => Ok(Head::Scale),
        b"after" => Ok(Head::After),
        b"let" => Ok(Head::Let),
        b"if" => Ok(Head::If),
        _ => Err(TextKind::Syntax),
    }
}

/// The word of a contract that begins a text, and the text after it.
#[inline(always)]
pub fn head_here(start: &[u8]) -> Option<(Head, &[u8])>
    ensures found { IfSome result (λ r. word_here (head_word r.0) start.now r.1.now) }
    ensures shorter { IfSome result (λ r. length r.1.now < length start.now) }
{
    match start {
        [b'z', ..] => Some((Head::Zero, after_the_word(start, b"zero")?)),
        [b'p', ..] => Some((Head::Pay, after_the_word(start, b"pay")?)),
        [b'b', ..] => Some((Head::Both, after_the_word(start, b"both")?)),
        [b's', ..] => Some((Head::Scale, after_the_word(start, b"scale")?)),
        [b'a', ..] => Some((Head::After, after_the_word(start, b"after")?)),
        [b'l', ..] => Some((Head::Let, after_the_word(start, b"let")?)),
        [b'i', ..] => Some((Head::If, after_the_word(start, b"if")?)),
        _ => None,
    }
}

/// How a contract of a depth begins at a token, or the kind of the token's fault.
pub fn head_at(depth: u32, token: &Lexeme<'_>) -> Result<Head, TextKind>
    ensures { result ≡ head_at depth (tok_of token.now) }
{
    let head = head_of(token);
    match head {
        Err(TextKind::Syntax) | Err(TextKind::Number) | Err(TextKind::Date) => head,
        _ if depth > greatest_depth(Language::Contracts) => Err(TextKind::Deep),
        _ => head,
    }
}

fn amount_head_of(token: &Lexeme<'_>) -> Result<AmountHead, TextKind>
    ensures { result ≡ amount_head_of (tok_of token.now) }
{
    if !matches!(token.kind, LexemeKind::Word) {
        return Err(TextKind::Syntax);
    }
    match token.text {
        b"none" => Ok(AmountHead::None),
        b"pay" => Ok(AmountHead::Pay),
        b"add" => Ok(AmountHead::Add),
        b"scale" => Ok(AmountHead::Scale),
        b"let" => Ok(AmountHead::Let),
        b"loop" => Ok(AmountHead::Loop),
        b"cut" => Ok(AmountHead::Cut),
        _ => Err(TextKind::Syntax),
    }
}

/// How an amount of payoff code of a depth begins at a token, or the kind of the token's fault.
pub fn amount_head_at(depth: u32, token: &Lexeme<'_>) -> Result<AmountHead, TextKind>
    ensures { result ≡ amount_head_at depth (tok_of token.now) }
{
    let head = amount_head_of(token);
    match head {
        Err(TextKind::Syntax) | Err(TextKind::Number) | Err(TextKind::Date) => head,
        _ if depth > greatest_depth(Language::Code) => Err(TextKind::Deep),
        _ => head,
    }
}
