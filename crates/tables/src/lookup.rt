// What is read of the tables of a tree is the tree's. Nothing here runs; each function asks for the proof of a law.
ghost use Rattle.tables.specs.LookupLaws.{NodeLookedUp, RowsAscend, RowHit, RowMissed, StandsFound, FoundAfter, KindRead};
ghost use Rattle.tables.specs.LookupLaws.{SameKeys, NameFound, AllReadable, StandsAfter, HoldsIs, HoldsFits, InBounds};
ghost use Rattle.tables.specs.LookupLaws.{InRange, SumsMade};

// A search for an id ends where the node stands, or after all rows.
pub fn node_looked_up()
    ensures { NodeLookedUp }
{}

// Ids that ascend do so by rows.
pub fn rows_ascend()
    ensures { RowsAscend }
{}

// Where ids ascend, a row with an id is the first one with it.
pub fn row_hit()
    ensures { RowHit }
{}

// There is no row with an id between two that stand side by side.
pub fn row_missed()
    ensures { RowMissed }
{}

// The node at a place is the one that the tree finds.
pub fn stands_found()
    ensures { StandsFound }
{}

// After a change it has its new body, and the other nodes are as they were.
pub fn found_after()
    ensures { FoundAfter }
{}

// A place tells a directory from a file, and how much it has.
pub fn kind_read()
    ensures { KindRead }
{}

// Names are the same where their keys are.
pub fn same_keys()
    ensures { SameKeys }
{}

// A search for a key ends at the entry with that name, or after all entries.
pub fn name_found()
    ensures { NameFound }
{}

// All that is read of tables that hold a tree.
pub fn all_readable()
    ensures { AllReadable }
{}

// A node stays at its row where a body changes.
pub fn stands_after()
    ensures { StandsAfter }
{}

// Tables that hold a tree are its tables.
pub fn holds_is()
    ensures { HoldsIs }
{}

// A tree that fits is held by its tables.
pub fn holds_fits()
    ensures { HoldsFits }
{}

// How long tables are, and how large their sums.
pub fn in_bounds()
    ensures { InBounds }
{}

// What a place tells stays within what is in use.
pub fn in_range()
    ensures { InRange }
{}

// Sums made from the table of nodes are the tree's.
pub fn sums_made()
    ensures { SumsMade }
{}
