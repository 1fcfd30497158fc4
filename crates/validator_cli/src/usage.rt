//! What is told of words that are no command.
ghost use Rattle.std.specs.Prelude.{◌≡◌, ◌≤◌, IfOk, string_bytes};
ghost use Rattle.std.specs.Str.Iter.{LacksByte};

use command_line::Usage;
use std::alloc::{AllocError, Global};

/// The line that tells why: the first paragraph of what is told, its words a blank apart.
pub fn usage_line(alloc: Global, usage: &Usage) -> Result<String, AllocError>
    ensures { IfOk result (λ line. LacksByte 10 (string_bytes line)) }
{
    let told = usage.as_str();
    let first = match told.split_once("\n\n") {
        Some((first, _)) => first,
        None => told,
    };
    let mut line = String::new(alloc);
    'words: for word in first.split_whitespace() {
        if !line.is_empty() {
            line.push(' ')?;
        }
        line.push_str(word)?;
    }
    Ok(line)
}
