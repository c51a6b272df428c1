//! The lexemes of a text: how far each one goes.
ghost use Rattle.std.specs.Prelude.{◌≡◌, ◌≢◌, [], ◌∷◌, drop, false, true, List};
ghost use Rattle.json.specs.Align.{span};
ghost use Rattle.json.specs.Lex.{between, in_escape, in_string, in_word, lex, token};
ghost use Rattle.json.specs.Token.{Token};
ghost use Rattle.text_spans.specs.Place.{IsEnd, Stand, after_string as string_end, after_token as token_end, after_word as word_end, begins_token, ends_number, from_token as token_start, is_mark};

/// The text from its first byte on that is no blank, comma or colon.
pub(crate) fn from_token(text: &[u8]) -> &[u8]
    ensures here { result.now ≡ token_start text.now }
    ensures placed { (ts : List Token) → Stand ts text.now → Stand ts result.now }
    ensures begins { begins_token result.now ≡ true }
    ensures end { IsEnd result.now text.now }
{
    let mut rest = text;
    'bytes: while let Some((byte, after)) = rest.split_first() {
        if !is_mark(*byte) {
            return rest;
        }
        rest = after;
    }
    rest
}

/// Whether no token begins with the byte: a blank, a comma or a colon.
fn is_mark(byte: u8) -> bool
    ensures { result ≡ is_mark byte }
{
    matches!(byte, b' ' | b'\t' | b'\n' | b'\r' | b',' | b':')
}

/// The text after the token that it begins with.
pub(crate) fn after_token(text: &[u8]) -> &[u8]
    ensures here { result.now ≡ token_end text.now }
    ensures one { begins_token text.now ≡ true → text.now ≢ [] → (t : Token) × (lex between text.now ≡ token t ∷ lex between result.now) }
    ensures end { IsEnd result.now text.now }
{
    match text.split_first() {
        Some((byte, after)) => after_first(*byte, after),
        None => text,
    }
}

/// The text after the token that the byte begins, after which the text stands.
fn after_first(byte: u8, text: &[u8]) -> &[u8]
    ensures here { result.now ≡ token_end (byte ∷ text.now) }
    ensures one { is_mark byte ≡ false → (t : Token) × (lex between (byte ∷ text.now) ≡ token t ∷ lex between result.now) }
    ensures end { IsEnd result.now text.now }
{
    if ends_number(byte) {
        text
    } else if byte == b'"' {
        after_string(text)
    } else {
        after_word(text)
    }
}

/// The text after the quote that closes a string, within which it begins.
fn after_string(text: &[u8]) -> &[u8]
    ensures here { result.now ≡ string_end text.now }
    ensures lexed { lex in_string text.now ≡ lex between result.now }
    ensures end { IsEnd result.now text.now }
{
    let mut rest = text;
    'bytes: while let Some((byte, after)) = rest.split_first() {
        if *byte == b'"' {
            return after;
        }
        rest = if *byte == b'\\' {
            after_escaped(after)
        } else {
            after
        };
    }
    rest
}

/// The text after the byte that a backslash escapes, with which it begins.
fn after_escaped(text: &[u8]) -> &[u8]
    ensures here { string_end result.now ≡ drop (span in_escape text.now) text.now }
    ensures lexed { lex in_escape text.now ≡ lex in_string result.now }
    ensures end { IsEnd result.now text.now }
{
    match text.split_first() {
        Some((_, after)) => after,
        None => text,
    }
}

/// The text after a number or a literal, within which it begins.
fn after_word(text: &[u8]) -> &[u8]
    ensures here { result.now ≡ word_end text.now }
    ensures lexed { lex in_word text.now ≡ lex between result.now }
    ensures end { IsEnd result.now text.now }
{
    let mut rest = text;
    'bytes: while let Some((byte, after)) = rest.split_first() {
        if ends_number(*byte) {
            return rest;
        }
        rest = after;
    }
    rest
}

/// Whether a byte ends a number or a literal: an operator or a blank.
fn ends_number(byte: u8) -> bool
    ensures { result ≡ ends_number byte }
{
    matches!(
        byte,
        b'{' | b'}' | b'[' | b']' | b':' | b',' | b' ' | b'\t' | b'\n' | b'\r'
    )
}
