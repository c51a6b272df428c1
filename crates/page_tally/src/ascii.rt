//! Runs of plain ASCII, whose ends are looked for sixteen bytes at a time.
ghost use Rattle.std.specs.Prelude.{◌≡◌, ◌≤◌, length, map};
ghost use Rattle.std.specs.List.{prefix_len};
ghost use Rattle.std.specs.Simd.Lanes.{mask_l};
ghost use Rattle.page_tally.specs.Plain.{is_odd, is_plain_ascii};

use std::simd::prelude::*;

/// How many bytes stand before the first that does not stand for itself in a quoted text, or is not of ASCII.
pub(crate) fn plain_end(bytes: &[u8]) -> usize
    ensures run { result ≡ prefix_len is_plain_ascii bytes.now }
    ensures inside { result ≤ length bytes.now }
{
    let mut at = 0;
    while bytes.len() - at >= 16 {
        let odd = odd_lanes(u8x16::from_slice(&bytes[at..]));
        if odd != 0 {
            return at + odd.trailing_zeros() as usize;
        }
        at += 16;
    }
    at + plain_end_slowly(&bytes[at..])
}

/// The same, a byte at a time.
fn plain_end_slowly(bytes: &[u8]) -> usize
    ensures run { result ≡ prefix_len is_plain_ascii bytes.now }
    ensures inside { result ≤ length bytes.now }
{
    let mut at = 0;
    while at < bytes.len() && is_plain_ascii(bytes[at]) {
        at += 1;
    }
    at
}

/// Whether a byte is a character of ASCII that stands for itself in a quoted text.
fn is_plain_ascii(b: u8) -> bool
    ensures { result ≡ is_plain_ascii b }
{
    b >= b' ' && b != b'"' && b != b'\\' && b < 128
}

/// The byte of each lane that is not such a character has its bit set.
#[inline(always)]
fn odd_lanes(v: u8x16) -> u64
    ensures { result ≡ mask_l (map is_odd v) }
{
    (v.simd_eq(u8x16::splat(b'"'))
        | v.simd_eq(u8x16::splat(b'\\'))
        | v.simd_lt(u8x16::splat(b' '))
        | v.simd_gt(u8x16::splat(127))).to_bitmask()
}
