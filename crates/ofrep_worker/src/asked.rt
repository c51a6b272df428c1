//! What an answer depends on of a request.
ghost use Rattle.std.specs.Prelude.{◌≡◌, IfOk, map, codes};
ghost use Rattle.http_header.specs.HeaderMap.{get_all};
ghost use Rattle.http.specs.Request.{head_of};

use bytes::Bytes;
use http::Request;
use http::header::IF_NONE_MATCH;
use std::alloc::{AllocError, Global};

/// The value of each field `If-None-Match`.
pub(crate) fn tags_named(alloc: Global, request: &Request<Bytes>) -> Result<Vec<&[u8]>, AllocError>
    ensures { IfOk result (λ tags. map (λ tag. tag.now) tags.items ≡ map (λ value. value.bytes) (get_all (head_of request.now).headers (codes "if-none-match"))) }
{
    let mut tags = Vec::new(alloc);
    for value in request.headers().get_all(IF_NONE_MATCH) {
        tags.push(value.as_bytes())?;
    }
    Ok(tags)
}
