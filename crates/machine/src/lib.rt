// The program as definitions, and every promise proved of it. Nothing here runs: each function asks for a theorem.
#![tactic(auto)]

ghost use Rattle.model.specs.Promise.{all, thin, Right, ComesToAnEnd, StaysSmall, LookingDoesNothing, RefusingDoesNothing};
ghost use Rattle.machine.specs.Layout.{volume_program};
ghost use Rattle.machine.specs.Bounds.{ActsCounted, ChangesFit, AreasApart, CheckpointsFit, MemoryFits, ReplayFits, Decodes, Loads};
ghost use Rattle.machine.specs.Kept.{CarriedNext, CarriedRedo, CarriedWoken, AlwaysCarried, AlwaysWritten};

// Whatever happens, and whenever power goes, there is a file system that explains every answer.
pub fn right()
    ensures { (Right all volume_program) × (Right thin volume_program) }
{}

// What is begun ends: at most twice as many acts as there are blocks.
pub fn comes_to_an_end()
    ensures { (ComesToAnEnd all volume_program) × (ComesToAnEnd thin volume_program) }
{}

// Memory and acts stay within their bounds.
pub fn stays_small()
    ensures { (StaysSmall all volume_program) × (StaysSmall thin volume_program) }
{}

// Looking does nothing to the disk, and neither does what is refused.
pub fn does_nothing()
    ensures looking { (LookingDoesNothing all volume_program) × (LookingDoesNothing thin volume_program) }
    ensures refusing { (RefusingDoesNothing all volume_program) × (RefusingDoesNothing thin volume_program) }
{}

// The acts of each call, by kind; and how many changes have a place between two checkpoints.
pub fn counts()
    ensures acts { ActsCounted }
    ensures changes { ChangesFit }
{}

// The layout fits the disk and memory, for all limits.
pub fn layout_fits()
    ensures areas { AreasApart }
    ensures checkpoints { CheckpointsFit }
    ensures memory { MemoryFits }
    ensures replay { ReplayFits }
{}

// What is written to memory and to the disk is read back.
pub fn reads_back()
    ensures memory { Decodes }
    ensures disk { Loads }
{}

// What the layout can carry stays so: after each call, each item of a journal done again, and each start.
pub fn carries_on()
    ensures call { CarriedNext }
    ensures replay { CarriedRedo }
    ensures start { CarriedWoken }
{}

// Whenever the program is up and nothing is under way, its memory is the encoding of a state that the layout can carry.
pub fn always_carried()
    ensures { (AlwaysCarried all) × (AlwaysCarried thin) }
{}

// Whatever happened, a start finds a superblock and the checkpoint that it names, and every block whole.
pub fn always_written()
    ensures { (AlwaysWritten all) × (AlwaysWritten thin) }
{}
