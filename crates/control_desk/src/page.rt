//! The console.
use http::HeaderValue;

/// The console: its page, and the policy by which a browser takes nothing else.
#[derive(Drop)]
pub struct ConsolePage<'a> {
    /// The page.
    pub text: &'a str,
    /// The field `Content-Security-Policy`.
    pub policy: HeaderValue,
}
