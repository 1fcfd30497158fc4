//! Laws of what bytes spell.
ghost use Rattle.std.specs.Prelude.{◌≡◌, ◌++◌, ◌⊎◌, ℕ, List, Option, Some, Result, Err};
ghost use Rattle.http_wire.specs.Fronts.{HasNoFront, IsStuck, Within};
ghost use Rattle.http_wire.specs.Heads.{IsRequestText, IsResponseText, head_limit};
ghost use Rattle.http_wire.specs.Plain.{IsRequestHead, RequestBodyStep, RequestHeadStep};
ghost use Rattle.http_wire.specs.Messages.{RequestStep, SpellsRequest, IsSameRequest, IsNoRequest, SpellsResponse, IsSameResponse, IsNoResponse};
ghost use Rattle.http_wire.specs.Framings.{Pair, framing_of};
ghost use Rattle.http_wire.specs.Spellings.{spelled_request, spelled_response};
ghost use Rattle.http_wire.specs.ReadBack.{IsPlainRequest, HasFixedFields, IsPlainResponse, HasFixedResponseFields};
ghost use Rattle.http_wire.specs.FramingRules.{IsFramedBy};
ghost use Rattle.http_wire.specs.declared.message.Request.{Request};
ghost use Rattle.http_wire.specs.declared.message.Response.{Response};
ghost use Rattle.http_wire.specs.declared.message.WireFault.{WireFault};

/// A head, and what was found after it, are a request, or why there is none; and where there is no head there is none.
pub fn parts_law()
    ensures behind { (left : Option (List ℕ)) (head : Request) (read : Result Request WireFault) (front rest : List ℕ) → IsRequestHead front head → RequestBodyStep head left read rest → RequestStep left read (front ++ rest) }
    ensures headless { (left : Option (List ℕ)) (f : WireFault) (bytes : List ℕ) → RequestHeadStep left (Err f) bytes → RequestStep left (Err f) bytes }
{}

/// Where a link has these bytes left, no more than one request stands at their front, however they are cut.
pub fn request_law()
    ensures { (x a y b : List ℕ) (r s : Request) → SpellsRequest x (Some a) r → SpellsRequest y (Some b) s → x ++ a ≡ y ++ b → (x ≡ y) × IsSameRequest r s }
{}

/// Where reading a head got stuck, no front of all that was left is one within the limits.
pub fn stuck_law()
    ensures request { (x a : List ℕ) → IsStuck (Within IsRequestText head_limit) x (Some a) → HasNoFront (Within IsRequestText head_limit) (x ++ a) }
    ensures response { (x a : List ℕ) → IsStuck (Within IsResponseText head_limit) x (Some a) → HasNoFront (Within IsResponseText head_limit) (x ++ a) }
{}

/// Where a request stands at the front of what a link has left, reading it is refused only for the link or
/// for memory.
pub fn refusal_law()
    ensures { (x y a b : List ℕ) (r : Request) (f : WireFault) → SpellsRequest x (Some a) r → IsNoRequest y (Some b) f → x ++ a ≡ y ++ b → (f ≡ WireFault.Link) ⊎ (f ≡ WireFault.OutOfMemory) }
{}

/// Where a link has these bytes left, no more than one response stands at their front, however they are cut.
pub fn response_law()
    ensures same { (x y a b : List ℕ) (r s : Response) → SpellsResponse x (Some a) r → SpellsResponse y (Some b) s → x ++ a ≡ y ++ b → (x ≡ y) × IsSameResponse r s }
    ensures refused { (x y a b : List ℕ) (r : Response) (f : WireFault) → SpellsResponse x (Some a) r → IsNoResponse y (Some b) f → x ++ a ≡ y ++ b → (f ≡ WireFault.Link) ⊎ (f ≡ WireFault.OutOfMemory) }
{}

/// How fields frame a body: by the one length that all Content-Length fields say, by chunks where the one
/// Transfer-Encoding is chunked, not at all where there is neither, and else they are ambiguous.
pub fn framing_law()
    ensures { (fields : List Pair) → IsFramedBy fields (framing_of fields) }
{}

/// What is written reads back: the spelling of a message within the limits, whose own fields say nothing of
/// the body, spells that message with the fixed fields after its own, whatever follows.
pub fn read_back_law()
    ensures request { (r s : Request) (a : List ℕ) → IsPlainRequest r → HasFixedFields r s → SpellsRequest (spelled_request r) (Some a) s }
    ensures response { (r s : Response) (a : List ℕ) → IsPlainResponse r → HasFixedResponseFields r s → SpellsResponse (spelled_response r) (Some a) s }
{}
