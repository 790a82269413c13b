// Words of eight bytes, tables of them as blocks, and bitmaps: definitions and their laws. Nothing here runs.
#![tactic(auto)]

ghost use Rattle.blocks.specs.Laws.{StringBack, TableBack, BlockAt, BitsBack};

// What is written as words, as blocks and as bits is read back.
pub fn reads_back()
    ensures strings { StringBack }
    ensures tables { TableBack }
    ensures blocks { BlockAt }
    ensures bits { BitsBack }
{}
