//! What is wrong with a number that is not taken, by its spelling.
use crate::lines::Lines;
use simdutf8::basic;
use std::alloc::{AllocError, Global};
use text_spans::{Step, find};

/// The most bytes of a number's spelling that are shown.
const MOST_SHOWN: usize = 40;

/// The digits of 2^53-1, the largest number that is taken.
const MOST_DIGITS: usize = 16;

/// Why a number is not taken.
#[derive(Clone, Copy)]
enum NumberFault<'a> {
    /// It has an exponent.
    Exponent,
    /// It has a fraction.
    Fraction,
    /// It has a point and zeros behind these digits.
    Point(&'a str),
    /// It is zero with a minus sign.
    NegativeZero,
    /// It is whole, and out of range.
    Range,
}

impl<'a> NumberFault<'a> {
    /// The fault of a number that is spelled so.
    fn of(spelled: &'a str) -> NumberFault<'a> {
        if spelled
            .as_bytes()
            .iter()
            .any(|byte| *byte == b'e' || *byte == b'E')
        {
            return NumberFault::Exponent;
        }
        match spelled.split_once('.') {
            Some((digits, fraction)) => NumberFault::of_parts(digits, fraction),
            None if spelled == "-0" => NumberFault::NegativeZero,
            None => NumberFault::Range,
        }
    }

    /// The fault of a number with these digits before its point and behind it.
    fn of_parts(digits: &'a str, fraction: &str) -> NumberFault<'a> {
        if !fraction.as_bytes().iter().all(|byte| *byte == b'0') {
            NumberFault::Fraction
        } else if digits == "-0" {
            NumberFault::NegativeZero
        } else if digits.len() > MOST_DIGITS {
            NumberFault::Range
        } else {
            NumberFault::Point(digits)
        }
    }
}

/// Of a number that is spelled so, or in a way that is not known: that it stands there, why it is not taken, and what to write.
pub(crate) fn put_number(lines: &mut Lines, spelled: Option<&str>) {
    let Some(spelled) = spelled else {
        return write!(lines, " is a number that is not whole, or out of range");
    };
    match spelled.split_at_checked(MOST_SHOWN) {
        Some((beginning, _)) => write!(lines, " is {beginning}.."),
        None => write!(lines, " is {spelled}"),
    }
    match NumberFault::of(spelled) {
        NumberFault::Exponent => write!(lines, ", a number with an exponent: write its digits"),
        NumberFault::Fraction => write!(lines, ", a number that is not whole"),
        NumberFault::Point(digits) => write!(lines, ": write {digits}"),
        NumberFault::NegativeZero => write!(lines, ": write 0"),
        NumberFault::Range => write!(lines, ", a number out of range"),
    }
}

/// Whether a number that is spelled so, or in a way that is not known, may be one with a fraction.
pub(crate) fn may_have_fraction(spelled: Option<&str>) -> bool {
    match spelled {
        Some(spelled) => matches!(NumberFault::of(spelled), NumberFault::Fraction),
        None => true,
    }
}

/// How the number at a path is spelled in a JSON text.
pub(crate) fn spelled_at<'a>(
    alloc: Global,
    bytes: &'a [u8],
    path: &[Step<'_>],
) -> Result<Option<&'a str>, AllocError> {
    let Ok(text) = basic::from_utf8(bytes) else {
        return Ok(None);
    };
    match find(alloc, text, path)? {
        Some(span) => Ok(slice_of(bytes, span.start, span.end)),
        None => Ok(None),
    }
}

/// The text between two places of a text.
fn slice_of(bytes: &[u8], start: usize, end: usize) -> Option<&str> {
    basic::from_utf8(bytes.get(start..end)?).ok()
}
