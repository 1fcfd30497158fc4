//! The kept entries, one after another.
ghost use Rattle.std.specs.Iterator.{YieldsFirst, item_count};
ghost use Rattle.protect_record.specs.Iterating.{entries_left};

use slash_defs::{BlockEntry, Entry, VoteEntry};

/// The kept entries of one kind, in file order, each once. It borrows the record and takes no memory.
#[derive(Drop)]
pub struct Kept<'a> {
    pub(crate) blocks: &'a [BlockEntry],
    pub(crate) votes: &'a [VoteEntry],
}

impl<'a> Iterator for Kept<'a> {
    type Item = Entry;

    ghost next_gives = { YieldsFirst entries_left };

    ghost remaining = { item_count entries_left };

    fn next(&mut self) -> Option<Entry> {
        if let Some((first, others)) = self.blocks.split_first() {
            self.blocks = others;
            return Some(Entry::Block(*first));
        }
        let (first, others) = self.votes.split_first()?;
        self.votes = others;
        Some(Entry::Vote(*first))
    }
}
