//! What a text begins with, and the text behind it.

ghost use Rattle.std.specs.Prelude.{◌≡◌, ◌∷◌, ◌++◌, IfSome, true};
ghost use Rattle.csv.specs.Writing.{default_writer, needs_byte};
ghost use Rattle.fixing_files.specs.PlainRows.{BeginsWithLast, EndsLine};
ghost use Rattle.fixing_files.specs.Words.{IsBare};

/// The text behind this byte.
pub fn behind_byte(byte: u8, text: &[u8]) -> Option<&[u8]>
    ensures { IfSome result (λ rest. text.now ≡ byte ∷ rest.now) }
{
    match text {
        [first, rest @ ..] if *first == byte => Some(rest),
        _ => None,
    }
}

/// The text behind this word.
pub fn behind_word<'a>(word: &[u8], text: &'a [u8]) -> Option<&'a [u8]>
    ensures { IfSome result (λ rest. text.now ≡ word.now ++ rest.now) }
{
    text.strip_prefix(word)
}

/// The text before a comma, and the one behind it.
pub fn around_comma(text: &[u8]) -> Option<(&[u8], &[u8])>
    ensures { IfSome result (λ r. text.now ≡ r.0.now ++ 44 ∷ r.1.now) }
{
    let end = text.iter().position(|b| *b == b',')?;
    Some((&text[..end], &text[end + 1..]))
}

// Whether a byte calls for quotation marks.
fn is_mark(byte: u8) -> bool
    ensures { result ≡ needs_byte default_writer byte }
{
    byte == b',' || byte == b'"' || byte == b'\r' || byte == b'\n'
}

/// Whether a word is written without quotation marks.
pub fn is_bare(word: &[u8]) -> bool
    ensures { result ≡ true → IsBare word.now }
{
    for b in word {
        if is_mark(*b) {
            return false;
        }
    }
    true
}

/// The text behind a line that ends here.
pub fn behind_end(text: &[u8]) -> Option<&[u8]>
    ensures { IfSome result (λ rest. EndsLine text.now rest.now) }
{
    if text.is_empty() {
        return Some(text);
    }
    match behind_byte(b'\r', text) {
        Some(line) => behind_byte(b'\n', line),
        None => behind_byte(b'\n', text),
    }
}

/// The text behind a line that is this word.
pub fn behind_line<'a>(word: &[u8], text: &'a [u8]) -> Option<&'a [u8]>
    ensures { IfSome result (λ rest. BeginsWithLast text.now word.now rest.now) }
{
    let behind = behind_word(word, text)?;
    behind_end(behind)
}
