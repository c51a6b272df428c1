//! The escaping of texts.
ghost use Rattle.std.specs.Prelude.{◌≡◌, ◌++◌, IfOk, OnErr, OnOk, chars, string_bytes};
ghost use Rattle.picture.specs.Escape.{AddsBeginning, allowed, begun, escaped, escaped_char};

use std::alloc::{AllocError, Global};

/// The text as character data of XML.
pub fn escaped(alloc: Global, text: &str) -> Result<String, AllocError>
    ensures { IfOk result (λ s. string_bytes s ≡ escaped text.now) }
{
    let mut out = String::new(alloc);
    push_escaped(&mut out, text)?;
    Ok(out)
}

/// Adds the text as character data of XML, or a beginning of it where memory runs out.
pub fn push_escaped(out: &mut String, text: &str) -> Result<(), AllocError>
    ensures all { OnOk result (string_bytes out.new ≡ string_bytes out.old ++ escaped text.now) }
    ensures beginning { OnErr result (AddsBeginning (escaped text.now) (string_bytes out.old) (string_bytes out.new)) }
{
    for c in text.chars() {
        push_char(out, c)?;
    }
    Ok(())
}

/// Adds the first characters of the text, so many at most, and an ellipsis where it has more; or a beginning of that where
/// memory runs out.
pub fn push_start(out: &mut String, text: &str, most: u32) -> Result<(), AllocError>
    ensures all { OnOk result (string_bytes out.new ≡ string_bytes out.old ++ begun most (chars text.now)) }
    ensures beginning { OnErr result (AddsBeginning (begun most (chars text.now)) (string_bytes out.old) (string_bytes out.new)) }
{
    let mut left = most;
    for c in text.chars() {
        if left == 0 {
            out.push('…')?;
            return Ok(());
        }
        left -= 1;
        push_char(out, c)?;
    }
    Ok(())
}

fn push_char(out: &mut String, c: char) -> Result<(), AllocError>
    ensures all { OnOk result (string_bytes out.new ≡ string_bytes out.old ++ escaped_char c) }
    ensures none { OnErr result (string_bytes out.new ≡ string_bytes out.old) }
{
    match c {
        '&' => out.push_str("&amp;"),
        '<' => out.push_str("&lt;"),
        '>' => out.push_str("&gt;"),
        '"' => out.push_str("&quot;"),
        '\'' => out.push_str("&apos;"),
        _ => out.push(allowed(c)),
    }
}

/// The character, or U+FFFD for one that no document may have.
fn allowed(c: char) -> char
    ensures { result ≡ allowed c }
{
    match c {
        '\t' | '\n' | '\r' => c,
        '\0'..='\x1f' | '\u{fffe}' | '\u{ffff}' => char::REPLACEMENT_CHARACTER,
        _ => c,
    }
}
