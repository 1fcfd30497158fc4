//! Laws of pasts and of joins, for the layers above.
ghost use Rattle.slash_defs.specs.declared.book.Book.{Book};
ghost use Rattle.slash_defs.specs.declared.message.Message.{Message};
ghost use Rattle.protect_record.specs.Parts.{Parts};
ghost use Rattle.protect_record.specs.Pasts.{Past, with_own, with_book, then_past};
ghost use Rattle.protect_record.specs.Passing.{Passes, Covers};
ghost use Rattle.protect_record.specs.Gathering.{IsJoin, IsWellKept, SameEntries};

/// What a past with an own message lets pass is not slashable with that message.
pub fn covers_own()
    ensures { (past : Past) (m : Message) → Covers (with_own past m) m }
{}

/// One more own message, one more book or a second past lets no more pass.
pub fn passes_less()
    ensures own { (past : Past) (m n : Message) → Passes (with_own past m) n → Passes past n }
    ensures book { (past : Past) (b : Book) (n : Message) → Passes (with_book past b) n → Passes past n }
    ensures first { (p q : Past) (n : Message) → Passes (then_past p q) n → Passes p n }
    ensures second { (p q : Past) (n : Message) → Passes (then_past p q) n → Passes q n }
{}

/// Joining records does not depend on their order or on repeats.
pub fn join_laws()
    ensures commutative { (r s t u : Parts) → IsJoin r s t → IsJoin s r u → SameEntries t u }
    ensures associative { (r s t u v w x : Parts) → IsJoin r s t → IsJoin t u v → IsJoin s u w → IsJoin r w x
        → SameEntries v x }
    ensures idempotent { (r t : Parts) → IsWellKept r.floors r.blocks r.votes → IsJoin r r t
        → SameEntries r t }
{}
