//! What holds of custody, whatever the desk and the signer reply.
ghost use Rattle.std.specs.Prelude.{ℕ, List};
ghost use Rattle.std.specs.declared.option.Option.{Option};
ghost use Rattle.edge_kit.specs.declared.bytes.PubKey.{PubKey};
ghost use Rattle.slash_defs.specs.declared.book.File.{File};
ghost use Rattle.call_plans.specs.Plans.{IsDetermined};
ghost use Rattle.client_calls.specs.Steps.{Fits};
ghost use Rattle.key_custody.specs.Once.{DeletesOnce, ImportsOnce, WholeFromEmpty};
ghost use Rattle.key_custody.specs.Plans.{deletion_plan, import_plan, list_plan};

/// The replies determine what is called and what comes of it.
pub fn custody_law()
    ensures imports { (file : Option File) (now : ℕ) (keystores : List (List ℕ × List ℕ)) → IsDetermined Fits (import_plan file now keystores) }
    ensures deletes { (keys : List PubKey) → IsDetermined Fits (deletion_plan keys) }
    ensures lists { IsDetermined Fits list_plan }
{}

/// A deletion that was carried out without error and comes again, where no key of it became active between, leaves
/// every record, state and watch as it found them, and asks the signer nothing, also where memory runs out in it. It
/// hands out the same file where between no file that lists a key of it was merged, and none of its keys was pruned. An
/// import that was carried out without error and comes again, where no deletion of a key of it was begun between, leaves
/// every record, state and watch as it found them, and asks the signer nothing, also where the desk refuses it. Stops of the client may come between. Both are
/// said of states in which a key without a past has no state: each that an empty desk comes to is such.
pub fn once_law()
    ensures whole { WholeFromEmpty }
    ensures imports { ImportsOnce }
    ensures deletes { DeletesOnce }
{}
