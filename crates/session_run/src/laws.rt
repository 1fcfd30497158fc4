//! What holds of the desk's machine and of a session's lines, whatever is asked.
ghost use Rattle.std.specs.Prelude.{◌≡◌, ℕ};
ghost use Rattle.edge_kit.specs.declared.bytes.PubKey.{PubKey};
ghost use Rattle.edge_kit.specs.declared.bytes.Root.{Root};
ghost use Rattle.slash_defs.specs.declared.message.Message.{Message};
ghost use Rattle.desk_machine.specs.States.{State, Lasting};
ghost use Rattle.check_sign.specs.Crashes.{Files};
ghost use Rattle.check_sign.specs.Standing.{MayOpen, Opens};
ghost use Rattle.desk_machine.specs.Machine.{Reply, after};
ghost use Rattle.desk_machine.specs.declared.open_grant.OpenGrant.{OpenGrant};
ghost use Rattle.desk_machine.specs.declared.call.DeskCall.{DeskCall};
ghost use Rattle.desk_machine.specs.declared.call.DeskCall.TheVariants as call;
ghost use Rattle.desk_machine.specs.declared.call.DeskReply.{DeskReply};
ghost use Rattle.desk_machine.specs.declared.call.DeskReply.TheVariants as reply;
ghost use Rattle.session_run.specs.Durable.{CoversKey, IsDurable};
ghost use Rattle.session_run.specs.Retries.{DeletesOnce, ImportsOnce};

/// A grant is durable. Once a message was granted, the past of its key lets nothing pass that is slashable with
/// it, and so does what a torn call would have left; no call and no reply changes that; and all files that
/// may open to such a state open to a past of the key that covers the message.
pub fn durable_law()
    ensures granted { (state : State) (key : PubKey) (m : Message) (now : ℕ) (g : OpenGrant) → Reply state (call.Propose key m now) (reply.Granted g)
        → IsDurable (after state (call.Propose key m now) (reply.Granted g)) key m }
    ensures stays { (state : State) (c : DeskCall) (r : DeskReply) (key : PubKey) (m : Message) → IsDurable state key m → IsDurable (after state c r) key m }
    ensures images { (genesis : Root) (state : State) (key : PubKey) (m : Message) (files : Files) → IsDurable state key m → MayOpen genesis state files
        → (l : Lasting) × Opens genesis files l × CoversKey l.keys key m }
{}

/// A deletion or an import that was answered without error and comes again has the effect of one: in the same
/// session or a later one over the same journal, with calls and stops of the program between. Both are said of
/// states in which a key without a past has no state; each that an empty desk comes to is such (`once_law`).
pub fn retry_law()
    ensures deletes { DeletesOnce }
    ensures imports { ImportsOnce }
{}
