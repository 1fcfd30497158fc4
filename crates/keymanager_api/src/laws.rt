//! Laws of what is read of a connection.
ghost use Rattle.std.specs.Prelude.{◌≡◌, ◌⊎◌, ℕ, List, Option, Result, Ok, Err};
ghost use Rattle.http_wire.specs.Messages.{RequestStep};
ghost use Rattle.http_wire.specs.Plain.{IsRequestHead};
ghost use Rattle.http_wire.specs.declared.message.Request.{Request};
ghost use Rattle.http_wire.specs.declared.message.WireFault.{WireFault};
ghost use Rattle.keymanager_routes.specs.Checks.{action_for};
ghost use Rattle.keymanager_routes.specs.declared.refusal.Refusal.{Refusal};
ghost use Rattle.keymanager_api.specs.Readings.{IsRefusedHead, MessageStep};

/// What is read of a connection is a request, or why there is none, as `http_wire::read_request` reads it; or a head that
/// fails its checks, of which nothing but the head was taken.
pub fn message_law()
    ensures message { (token : List ℕ) (left : Option (List ℕ)) (read : Result Request WireFault) (bytes : List ℕ) → MessageStep (action_for token) left read bytes → RequestStep left read bytes ⊎ IsRefusedHead (action_for token) read bytes }

    // A request whose head fails a check was read as its head alone.
    ensures unread { (token : List ℕ) (left : Option (List ℕ)) (request : Request) (bytes : List ℕ) (refusal : Refusal) → MessageStep (action_for token) left (Ok request) bytes → action_for token request ≡ Err refusal → IsRequestHead bytes request }
{}
