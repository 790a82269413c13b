// All words of memory, and those of each table. Nothing here runs; the function asks for the proofs of laws.
ghost use Rattle.memory.specs.Encodes.{WholeSplits, WholeJoins, LengthsAre};

// The tables of memory, one after another, are the encoding of its state, and nothing else is.
pub fn whole_words()
    ensures joins { WholeJoins }
    ensures splits { WholeSplits }
    ensures lengths { LengthsAre }
{}
