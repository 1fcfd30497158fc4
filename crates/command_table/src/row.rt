//! Rows that say the arguments of a command.

/// An argument of a command.
#[derive(Clone, Copy)]
pub(crate) enum Row {
    /// The option `--genesis`.
    Genesis,
    /// The option `--fork`.
    Fork,
    /// The option `--watch`.
    Watch,
    /// The option `--aggregate`.
    Aggregate,
    /// The option `--quiet`.
    Quiet,
    /// The nodes, which stand after the options.
    Nodes,
    /// A value that must be given, in its place.
    Value {
        id: &'static str,
        name: &'static str,
        about: &'static str,
    },
    /// An option of one value, which a command cannot do without, or can.
    Choice {
        id: &'static str,
        name: &'static str,
        about: &'static str,
        is_required: bool,
    },
}
