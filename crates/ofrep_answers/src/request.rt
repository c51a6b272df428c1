//! What an answer depends on of a request.

/// The parts of a request that its answer depends on.
#[derive(Clone, Copy)]
pub struct Request<'a> {
    /// The method.
    pub method: &'a str,
    /// The path of the target, without its query.
    pub path: &'a str,
    /// The value of each field `If-None-Match`.
    pub if_none_match: &'a [&'a [u8]],
    /// The body.
    pub body: &'a [u8],
}
