//! The limits of what is read.
ghost use Rattle.std.specs.Prelude.{◌≡◌};
ghost use Rattle.program_end.specs.Limits.{limit_number};

/// How many bytes a line may have, without its newline.
pub const LINE_LIMIT: u64 = 16_777_216;

/// How many bytes an input has at least that is not read on.
pub const INPUT_LIMIT: u64 = u64::MAX;

/// How many bytes an interchange file may have.
pub const FILE_LIMIT: u64 = interchange_io::FILE_LIMIT as u64;

/// How many keys a journal may name.
pub const KEY_LIMIT: u64 = 65_536;

/// Which limit an input passed.
#[derive(Clone, Copy, PartialEq, Eq, Debug)]
pub enum Limit {
    /// A line without its newline has more than 16,777,216 bytes.
    Line,
    /// The whole input has 18,446,744,073,709,551,615 bytes or more.
    Input,
    /// An interchange file has more than 268,435,456 bytes.
    File,
    /// A journal names more than 65,536 keys.
    Keys,
}

impl Limit {
    /// The limit, in bytes or in keys.
    pub fn number(self) -> u64
        ensures { result ≡ limit_number self }
    {
        match self {
            Limit::Line => LINE_LIMIT,
            Limit::Input => INPUT_LIMIT,
            Limit::File => FILE_LIMIT,
            Limit::Keys => KEY_LIMIT,
        }
    }
}
