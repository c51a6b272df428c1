//! Services whose answers rest on something.
ghost use Rattle.std.specs.Prelude.{ℕ, List};
ghost use Rattle.http.specs.declared.request.Request.{Request};
ghost use Rattle.http_server.specs.declared.response.Response.{Response};

use http_server::Service;

/// A service whose answers rest on something, such as a record of it, that stands before they are given.
pub trait Recording: Service {
    // In this state, what the answer to the request rests on stands.
    ghost stands: { Self → Request (List ℕ) → Response → Type 0 };

    // What a look for that does.
    ghost looked: { (old : Self) (new : Self) → Type 0 };

    /// Looks whether the place that answers rest on is still there.
    fn look(&mut self)
        ensures looked { looked self.old self.new };

    // Once it answers, what the answer rests on stands.
    ghost given: { (old : Self) (request : Request (List ℕ)) (response : Response) (new : Self) → Self.Service.answers old request response new → stands new request response };

    // It stays, whatever else is answered.
    ghost stays: { (old : Self) (request : Request (List ℕ)) (response : Response) (new : Self) → Self.Service.answers old request response new → (earlier : Request (List ℕ)) (told : Response) → stands old earlier told → stands new earlier told };

    // It stays, whatever a look finds.
    ghost looked_stays: { (old : Self) (new : Self) → looked old new → (earlier : Request (List ℕ)) (told : Response) → stands old earlier told → stands new earlier told };
}
