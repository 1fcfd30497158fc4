//! Why no node gave anything.
use edge_kit::Items;
use std::fmt;

/// Why one node gave nothing.
#[derive(Drop)]
pub enum Cause {
    /// It failed; its count of faults rose in this call.
    Fault,
    /// It answered this HTTP status in place of one of success.
    Status(u16),
    /// It answered something else than what was asked for; the bytes of the answer's body, none where there was no
    /// response.
    Unreadable(Items<u8>),
    /// It was syncing when the nodes were last refreshed, and was not asked.
    Syncing,
}

impl fmt::Display for Cause {
    ghost use Rattle.std.specs.Prelude.{Some};
    ghost use Rattle.node_fallback.specs.Texts.{cause_text};

    ghost output = { λ cause. Some (cause_text cause) };

    fn fmt<W: fmt::Write>(&self, f: &mut fmt::Formatter<W>) -> fmt::Result {
        match self {
            Cause::Fault => f.write_str("fault"),
            Cause::Status(status) => write!(f, "status {status}"),
            Cause::Unreadable(_) => f.write_str("unreadable"),
            Cause::Syncing => f.write_str("syncing"),
        }
    }
}

/// Why the nodes gave nothing.
#[derive(Drop)]
pub enum NoAnswer {
    /// Each node refused: one cause a node, in the order of the nodes.
    NoNode(Items<Cause>),
    /// Memory ran out. Nodes may have been asked.
    OutOfMemory,
}
