//! The replies of a guard.
ghost use Rattle.std.specs.Prelude.{◌≡◌};
ghost use Rattle.ofrep_guards.specs.Reply.{reply_text, status_of};

use http::StatusCode;

/// What a guard replies itself to a request.
#[derive(Clone, Copy, Debug, PartialEq, Eq)]
pub(crate) enum Reply {
    /// The request names an origin that is not listed.
    Forbidden,
    /// What the path is for is not served.
    Elsewhere,
    /// A browser asks what a page may ask.
    Preflight,
    /// The request shows no key that is known.
    Unauthorized,
    /// The body says to be encoded, or to be no JSON.
    Unsupported,
    /// The request names another host than the listener's own, or a page of another origin.
    Foreign,
    /// The service stops from now on.
    Stops,
    /// The service is stopping, and so it is not ready.
    Leaves,
    /// The path takes another method, which is POST.
    OnlyPost,
}

impl Reply {
    /// Its status.
    pub(crate) fn status(self) -> StatusCode
        ensures { result ≡ status_of self }
    {
        match self {
            Reply::Forbidden => StatusCode::FORBIDDEN,
            Reply::Elsewhere => StatusCode::NOT_FOUND,
            Reply::Preflight => StatusCode::NO_CONTENT,
            Reply::Unauthorized => StatusCode::UNAUTHORIZED,
            Reply::Unsupported => StatusCode::UNSUPPORTED_MEDIA_TYPE,
            Reply::Foreign => StatusCode::FORBIDDEN,
            Reply::Stops => StatusCode::OK,
            Reply::Leaves => StatusCode::SERVICE_UNAVAILABLE,
            Reply::OnlyPost => StatusCode::METHOD_NOT_ALLOWED,
        }
    }

    /// Its body.
    pub(crate) fn text(self) -> &'static str
        ensures { result.now ≡ reply_text self }
    {
        match self {
            Reply::Forbidden => r#"{"errorDetails":"the origin of this page is not listed"}"#,
            Reply::Elsewhere => r#"{"errorDetails":"nothing is served at this path"}"#,
            Reply::Preflight => "",
            Reply::Unauthorized => r#"{"errorDetails":"the request shows no key that is known"}"#,
            Reply::Unsupported => {
                r#"{"errorDetails":"the body is encoded, or its type is not application/json"}"#
            }
            Reply::Foreign => {
                r#"{"errorDetails":"the request names another host than this listener's, or a page of another origin"}"#
            }
            Reply::Stops => r#"{"stops":true}"#,
            Reply::Leaves => "the service is stopping",
            Reply::OnlyPost => r#"{"errorDetails":"this path takes another method"}"#,
        }
    }
}
