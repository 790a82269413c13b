// An item comes into the journal. Nothing here runs; the function asks for the proof of a law.
ghost use Rattle.tables.specs.Append.{AppendItem};

// An item more in the journal.
pub fn append_item()
    ensures { AppendItem }
{}
