// Tables that hold a tree hold it after a change, too. Nothing here runs; each function asks for the proof of a law.
ghost use Rattle.tables.specs.EditLaws.{PutEntry, DropEntry, AddNode, DropNode, DropSums, Grow, Cut, Make, Remove, Rename};

// A directory with one entry more.
pub fn put_entry()
    ensures { PutEntry }
{}

// A directory with one entry fewer.
pub fn drop_entry()
    ensures { DropEntry }
{}

// A node more.
pub fn add_node()
    ensures { AddNode }
{}

// A node fewer.
pub fn drop_node()
    ensures { DropNode }
{}

// The sums of a node that goes, lowered before its row goes.
pub fn drop_sums()
    ensures { DropSums }
{}

// A file with more cells.
pub fn grow()
    ensures { Grow }
{}

// A file with its first cells only.
pub fn cut()
    ensures { Cut }
{}

// A node made.
pub fn make()
    ensures { Make }
{}

// A node removed.
pub fn remove()
    ensures { Remove }
{}

// A node renamed.
pub fn rename()
    ensures { Rename }
{}
