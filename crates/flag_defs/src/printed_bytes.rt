//! In how many bytes a tree is printed, which is not printed for it. All is counted up to the most that is counted.
ghost use Rattle.std.specs.Prelude.{◌≡◌, length, nat_lt, if◌then◌else◌};
ghost use Rattle.std.specs.Fmt.{signed_decimal};
ghost use Rattle.json.specs.Print.{escape_byte, escape_letter};
ghost use Rattle.flag_text.specs.View.{view, items_view, members_view};
ghost use Rattle.flag_references.specs.Measure.{capped};
ghost use Rattle.flag_defs.specs.PrintedBytes.{enclosed, escaped_bytes, items_bytes, members_bytes, text_bytes, tree_bytes, with_item, with_member};

use flag_references::{capped, plus};
use flag_text::Tree;
use itoa::Buffer;

/// Of a tree.
#[cycle(printed)]
pub(crate) fn tree_bytes(tree: &Tree) -> u32
    ensures { result ≡ tree_bytes (view tree.now) }
{
    match tree {
        Tree::Null | Tree::Other => 4,
        Tree::Bool(b) => truth_bytes(*b),
        Tree::Whole(n) => whole_bytes(*n),
        Tree::Text(text) => text_bytes(text.as_str()),
        Tree::List(items) => enclosed(items_bytes(items)),
        Tree::Object(members) => enclosed(members_bytes(members)),
    }
}

#[cycle(printed)]
fn items_bytes(items: &Vec<Tree>) -> u32
    ensures { result ≡ items_bytes (items_view items.now.items) }
{
    let mut bytes = 0;
    // From the back, as the definition adds them up: it folds from the right.
    for i in (0..items.len()).rev() {
        let item = tree_bytes(&items[i]);
        bytes = with_item(item, bytes);
    }
    bytes
}

/// Of members, each with a comma behind it.
#[cycle(printed)]
pub(crate) fn members_bytes(members: &Vec<(String, Tree)>) -> u32
    ensures { result ≡ members_bytes (members_view members.now.items) }
{
    let mut bytes = 0;
    // From the back, as above.
    for i in (0..members.len()).rev() {
        let (name, member) = &members[i];
        let value = tree_bytes(member);
        bytes = with_member(name.as_str(), value, bytes);
    }
    bytes
}

/// Of the parts of a list or an object with the brackets around them, without the comma behind the last.
pub(crate) fn enclosed(parts: u32) -> u32
    ensures { result ≡ enclosed parts }
{
    plus(parts.saturating_sub(1), 2)
}

/// Of an item with a comma, and of those behind it.
pub(crate) fn with_item(item: u32, rest: u32) -> u32
    ensures { result ≡ with_item item rest }
{
    plus(plus(item, 1), rest)
}

/// Of a member with its colon and a comma, and of those behind it.
pub(crate) fn with_member(name: &str, value: u32, rest: u32) -> u32
    ensures { result ≡ with_member name.now value rest }
{
    plus(plus(text_bytes(name), plus(value, 2)), rest)
}

fn truth_bytes(truth: bool) -> u32
    ensures { result ≡ (if truth then 4 else 5) }
{
    if truth { 4 } else { 5 }
}

/// Of a whole number.
pub(crate) fn whole_bytes(n: i64) -> u32
    ensures { result ≡ capped (length (signed_decimal n)) }
{
    let mut buffer = Buffer::new();
    capped(buffer.format(n).len())
}

/// Of a text with its quotes.
pub(crate) fn text_bytes(content: &str) -> u32
    ensures { result ≡ text_bytes content.now }
{
    plus(escaped_bytes(content.as_bytes()), 2)
}

fn escaped_bytes(content: &[u8]) -> u32
    ensures { result ≡ escaped_bytes content.now }
{
    let mut bytes = 0;
    // From the back, as above.
    for i in (0..content.len()).rev() {
        bytes = plus(byte_bytes(content[i]), bytes);
    }
    bytes
}

/// Of what stands for a byte of a text.
fn byte_bytes(byte: u8) -> u32
    ensures { result ≡ length (escape_byte byte) }
{
    if has_letter(byte) {
        2
    } else if byte < 0x20 {
        6
    } else {
        1
    }
}

/// Whether a letter behind a backslash stands for the byte.
fn has_letter(byte: u8) -> bool
    ensures { result ≡ nat_lt 0 (escape_letter byte) }
{
    matches!(byte, b'"' | b'\\' | 8 | 12 | b'\n' | b'\r' | b'\t')
}
