//! How the output ends where nothing is begun.
ghost use Rattle.std.specs.Prelude.{◌≡◌, ◌≤◌, ◌++◌, IfOk, OnOk, flat_map, string_bytes};
ghost use Rattle.edge_kit.specs.declared.bytes.Root.{Root};
ghost use Rattle.journal_commands.specs.Views.{output_of};
ghost use Rattle.serve_run.specs.Starting.{ClosesUnstarted, behind_comma, causes_text};

use crate::start::Unstarted;
use edge_kit::{Root, Sink};
use node_fallback::Cause;
use program_end::{ClosingLine, Status, close};
use std::alloc::{AllocError, Global};

/// Closes the output where nothing is begun, by the line that says why (`no node` with the cause at each node, `genesis
/// differs` with both roots), and gives its status: `NoNode`, `GenesisDiffers`, or, where memory was wanted, `OutOfMemory`
/// without a line; `WriteFault` only where the output's count of faults rose.
pub fn close_unstarted<O: Sink>(
    alloc: Global,
    out: &mut O,
    genesis: &Root,
    why: Unstarted,
) -> Status
    ensures closes { ClosesUnstarted genesis.now why (output_of O.held O.faults out.old) (output_of O.held O.faults out.new) result }
    ensures later { O.faults out.old ≤ O.faults out.new }
{
    match why {
        Unstarted::NoNode(causes) => close_no_node(alloc, out, causes.as_slice()),
        Unstarted::GenesisDiffers(given) => {
            let line = ClosingLine::GenesisDiffers {
                kept: *genesis,
                given,
            };
            close(alloc, out, &line)
        }
        Unstarted::OutOfMemory => Status::OutOfMemory,
    }
}

/// Closes the output by the line of these causes.
fn close_no_node<O: Sink>(alloc: Global, out: &mut O, causes: &[Cause]) -> Status
    ensures closes { (genesis : Root) → ClosesUnstarted genesis (Unstarted.NoNode causes.now) (output_of O.held O.faults out.old) (output_of O.held O.faults out.new) result }
    ensures later { O.faults out.old ≤ O.faults out.new }
{
    match causes_text(alloc, causes) {
        Ok(text) => close(alloc, out, &ClosingLine::NoNode(text)),
        Err(AllocError) => Status::OutOfMemory,
    }
}

/// The causes, joined by `, `.
fn causes_text(alloc: Global, causes: &[Cause]) -> Result<String, AllocError>
    ensures { IfOk result (λ text. string_bytes text ≡ causes_text causes.now) }
{
    let Some((first, others)) = causes.split_first() else {
        return Ok(String::new(alloc));
    };
    let mut text = format!(in alloc; "{first}")?;
    push_causes(&mut text, others)?;
    Ok(text)
}

/// Puts causes after a text, each after a comma. The error is want of memory.
fn push_causes(text: &mut String, causes: &[Cause]) -> Result<(), AllocError>
    ensures { OnOk result (string_bytes text.new ≡ string_bytes text.old ++ flat_map behind_comma causes.now) }
{
    'causes: for cause in causes {
        write!(text, ", {cause}")?;
    }
    Ok(())
}
