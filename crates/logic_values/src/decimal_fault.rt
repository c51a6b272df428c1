//! Why bytes give no number.
use thiserror::Error;

/// Why bytes give no number.
#[derive(Clone, Copy, Debug, PartialEq, Eq, Error)]
pub enum DecimalFault {
    /// They spell no decimal number.
    #[error("not a decimal number")]
    NotDecimal,
    /// They spell one of more than 40 significant digits, or whose last significant digit has an exponent beyond -400 to 400.
    #[error("a decimal number of more than 40 digits, or with an exponent beyond 400")]
    OutOfRange,
}
