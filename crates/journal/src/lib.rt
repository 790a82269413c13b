// The superblock's journal, in a lent slice of words: the changing calls taken since the checkpoint, one item after another. Items
// are put behind those that are there, and read back. docs/FORMAT.md has the words of an item.
#![tactic(auto)]

ghost use Rattle.journal.specs.Laws.{ItemBack};

pub mod items;
pub mod names;
pub mod read;
pub mod write;

// What is appended is read back.
pub fn reads_back()
    ensures { ItemBack }
{}
