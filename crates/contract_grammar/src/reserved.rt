//! The reserved words.
ghost use Rattle.std.specs.Prelude.{◌≡◌};
ghost use Rattle.std.specs.List.{list_any};
ghost use Rattle.std.specs.Str.{bytes_eq};
ghost use Rattle.contract_grammar.specs.Words.{is_reserved, reserved_of_five, reserved_of_four, reserved_of_more, reserved_of_three, reserved_of_two};

fn is_reserved_of_two(text: &[u8]) -> bool
    ensures { result ≡ list_any (λ w. bytes_eq text.now w) reserved_of_two }
{
    matches!(text, b"in" | b"if")
}

fn is_reserved_of_three(text: &[u8]) -> bool
    ensures { result ≡ list_any (λ w. bytes_eq text.now w) reserved_of_three }
{
    matches!(
        text,
        b"num"
            | b"pay"
            | b"let"
            | b"obs"
            | b"neg"
            | b"not"
            | b"min"
            | b"max"
            | b"div"
            | b"acc"
            | b"add"
            | b"cut"
    )
}

fn is_reserved_of_four(text: &[u8]) -> bool
    ensures { result ≡ list_any (λ w. bytes_eq text.now w) reserved_of_four }
{
    matches!(
        text,
        b"flag"
            | b"code"
            | b"zero"
            | b"both"
            | b"then"
            | b"else"
            | b"true"
            | b"none"
            | b"loop"
            | b"upto"
            | b"ceil"
    )
}

fn is_reserved_of_five(text: &[u8]) -> bool
    ensures { result ≡ list_any (λ w. bytes_eq text.now w) reserved_of_five }
{
    matches!(
        text,
        b"start"
            | b"party"
            | b"asset"
            | b"scale"
            | b"after"
            | b"false"
            | b"widen"
            | b"round"
            | b"model"
            | b"floor"
    )
}

fn is_reserved_of_more(text: &[u8]) -> bool
    ensures { result ≡ list_any (λ w. bytes_eq text.now w) reserved_of_more }
{
    match text.len() {
        6 => text == b"payoff".as_slice()
            || text == b"origin".as_slice()
            || text == b"within".as_slice(),
        7 => text == b"amounts".as_slice(),
        8 => text == b"template".as_slice() || text == b"contract".as_slice(),
        9 => text == b"portfolio".as_slice()
            || text == b"half_even".as_slice()
            || text == b"half_away".as_slice(),
        _ => false,
    }
}

/// Whether a word is reserved, and so no name. The length is looked at first: it tells most names
/// from the reserved words.
pub fn is_reserved(text: &[u8]) -> bool
    ensures { result ≡ is_reserved text.now }
{
    match text.len() {
        0 | 1 => false,
        2 => is_reserved_of_two(text),
        3 => is_reserved_of_three(text),
        4 => is_reserved_of_four(text),
        5 => is_reserved_of_five(text),
        _ => is_reserved_of_more(text),
    }
}
