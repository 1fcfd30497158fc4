//! What the system answers, with its failures counted and told.
ghost use Rattle.std.specs.Prelude.{◌≡◌};
ghost use Rattle.std.specs.Result.{result_ok};
ghost use Rattle.edge_kit.specs.Causes.{HasCause};

use edge_kit::{Failed, count_fault};
use std::fmt::Display;
use std::io;
use std::io::Eprint;

/// What the system answered of something, whose failure is counted, and reported in the system's words: a line on standard
/// error.
pub fn counted<T, E: Eprint, W: Display + Drop>(
    done: io::Result<T>,
    handle: &E,
    what: W,
    faults: &mut u64,
) -> Result<T, Failed>
    ensures same { result_ok result ≡ result_ok done }
    ensures cause { HasCause faults.old faults.new result }
{
    match done {
        Ok(value) => Ok(value),
        Err(error) => {
            let _ = eprintln!(handle; "{what}: {error}");
            Err(count_fault(faults))
        }
    }
}
