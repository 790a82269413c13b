// Scripts: lines of text read. specs/ says what each line is.
#![tactic(auto)]

pub mod fields;
pub mod line;

ghost use Rattle.script.specs.Law.{CallsComeBack, CallsToldApart};

// Every call that bytes can carry is read back from its line, so different calls have different lines.
#[tactic(auto, using(crate::proofs::Trips::come_back, crate::proofs::Trips::told_apart))]
pub fn calls_come_back()
    ensures back { CallsComeBack }
    ensures apart { CallsToldApart }
{}
