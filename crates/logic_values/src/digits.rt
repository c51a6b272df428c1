//! Zeros that do not count, at the ends of digits that stand in two parts.
ghost use Rattle.std.specs.Prelude.{◌≡◌, ◌++◌};
ghost use Rattle.logic_values.specs.Decimal.{without_leading_zeros, without_trailing_zeros};

/// The two parts without the zeros at the beginning of both.
pub(crate) fn without_leading_zeros<'a>(head: &'a [u8], tail: &'a [u8]) -> (&'a [u8], &'a [u8])
    ensures { result.0.now ++ result.1.now ≡ without_leading_zeros (head.now ++ tail.now) }
{
    let head = after_zeros(head);
    if head.is_empty() {
        (head, after_zeros(tail))
    } else {
        (head, tail)
    }
}

/// The two parts without the zeros at the end of both.
pub(crate) fn without_trailing_zeros<'a>(head: &'a [u8], tail: &'a [u8]) -> (&'a [u8], &'a [u8])
    ensures { result.0.now ++ result.1.now ≡ without_trailing_zeros (head.now ++ tail.now) }
{
    let tail = before_zeros(tail);
    if tail.is_empty() {
        (before_zeros(head), tail)
    } else {
        (head, tail)
    }
}

fn after_zeros(digits: &[u8]) -> &[u8]
    ensures { result.now ≡ without_leading_zeros digits.now }
{
    let mut rest = digits;
    while let [b'0', others @ ..] = rest {
        rest = others;
    }
    rest
}

fn before_zeros(digits: &[u8]) -> &[u8]
    ensures { result.now ≡ without_trailing_zeros digits.now }
{
    let mut rest = digits;
    while let Some((last, others)) = rest.split_last() {
        if *last != b'0' {
            return rest;
        }
        rest = others;
    }
    rest
}
