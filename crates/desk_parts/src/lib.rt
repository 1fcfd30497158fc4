//! Parts of the desk that look at no disk: the room that is made before it changes, what it notes, and what its records weigh.
#![tactic(auto)]

mod room;
mod weighing;

pub use room::{
    fits_one, give, give_leave, make_room, note, note_closed, note_merge, note_pruned, note_record,
};
pub use weighing::weigh;
