//! The replies of a desk that rest on nothing.
ghost use Rattle.std.specs.Prelude.{◌≡◌};
ghost use Rattle.control_desk.specs.Reply.{media_of, reply_text, status_of};

use crate::giving::Media;
use http::StatusCode;

/// What a desk replies where it does not come to an answer.
#[derive(Clone, Copy, Debug, PartialEq, Eq)]
pub(crate) enum Reply {
    /// The path takes another method, which is GET.
    OnlyGet,
    /// The path takes another method, which is POST.
    OnlyPost,
    /// The request shows no key that is known.
    Unauthorized,
    /// Nothing is served at the path.
    Unserved,
    /// The query names no site.
    NoQuery,
    /// Others are answered just now.
    Busy,
    /// The logs, or the document, can't be read.
    Unreadable,
    /// What was applied can't be noted, or the document can't be written.
    Unwritten,
    /// The service is stopping, and so it is not ready.
    Leaves,
}

impl Reply {
    /// Its status.
    pub(crate) fn status(self) -> StatusCode
        ensures { result ≡ status_of self }
    {
        match self {
            Reply::OnlyGet => StatusCode::METHOD_NOT_ALLOWED,
            Reply::OnlyPost => StatusCode::METHOD_NOT_ALLOWED,
            Reply::Unauthorized => StatusCode::UNAUTHORIZED,
            Reply::Unserved => StatusCode::NOT_FOUND,
            Reply::NoQuery => StatusCode::BAD_REQUEST,
            Reply::Busy => StatusCode::SERVICE_UNAVAILABLE,
            Reply::Unreadable => StatusCode::INTERNAL_SERVER_ERROR,
            Reply::Unwritten => StatusCode::INTERNAL_SERVER_ERROR,
            Reply::Leaves => StatusCode::SERVICE_UNAVAILABLE,
        }
    }

    /// What its body is.
    pub(crate) fn media(self) -> Media
        ensures { result ≡ media_of self }
    {
        match self {
            Reply::Leaves => Media::Plain,
            Reply::OnlyGet
            | Reply::OnlyPost
            | Reply::Unauthorized
            | Reply::Unserved
            | Reply::NoQuery
            | Reply::Busy
            | Reply::Unreadable
            | Reply::Unwritten => Media::Json,
        }
    }

    /// Its body.
    pub(crate) fn text(self) -> &'static str
        ensures { result.now ≡ reply_text self }
    {
        match self {
            Reply::OnlyGet => r#"{"errorDetails":"this path takes another method"}"#,
            Reply::OnlyPost => r#"{"errorDetails":"this path takes another method"}"#,
            Reply::Unauthorized => r#"{"errorDetails":"the request shows no key that is known"}"#,
            Reply::Unserved => r#"{"errorDetails":"nothing is served at this path"}"#,
            Reply::NoQuery => r#"{"errorDetails":"the query is not flag=KEY&site=NUMBER"}"#,
            Reply::Busy => r#"{"errorDetails":"another call is answered just now"}"#,
            Reply::Unreadable => r#"{"errorDetails":"the logs or the document can't be read"}"#,
            Reply::Unwritten => r#"{"errorDetails":"the document can't be written"}"#,
            Reply::Leaves => "the service is stopping",
        }
    }
}
