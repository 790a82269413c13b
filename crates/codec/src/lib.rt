// Calls and answers as bytes: the formats are in specs/, and nothing here runs. Each function asks for the theorem that its
// contract names; crate `decode` reads bytes and crate `encode` writes them by the same definitions.
#![tactic(auto)]

ghost use Rattle.codec.specs.Promises.{CallsCarried, OnlyCallsRead, GarbledIsNoCall, GarbledAtLongestFront};
ghost use Rattle.codec.specs.Promises.{CallsToldApart, CallsAreBytes, ReadIsReadable};
ghost use Rattle.codec.specs.Promises.{RefusalsNumbered, AnswersCarried, OnlyAnswersRead};
ghost use Rattle.codec.specs.Promises.{AnswersToldApart, AnswersAreBytes};

// Each call that bytes can carry is read back from its bytes.
#[tactic(auto, using(crate::proofs::Carried::carried))]
pub fn calls_carried()
    ensures { CallsCarried }
{}

// Where a call is read, the bytes are its bytes.
#[tactic(auto, using(crate::proofs::Only::only_calls))]
pub fn only_calls_read()
    ensures { OnlyCallsRead }
{}

// Bytes that are read as garbled are no call's.
pub fn garbled_is_no_call()
    ensures { GarbledIsNoCall }
{}

// The garbled place is the length of the longest front with which some call's bytes begin.
pub fn garbled_at_longest_front()
    ensures { GarbledAtLongestFront }
{}

// Two different calls have different bytes.
pub fn calls_told_apart()
    ensures { CallsToldApart }
{}

// A call's bytes are bytes.
#[tactic(auto, using(crate::proofs::Readable::calls_bytes))]
pub fn calls_are_bytes()
    ensures { CallsAreBytes }
{}

// What is read is readable, garbled or not.
#[tactic(auto, using(crate::proofs::Readable::read_readable))]
pub fn read_is_readable()
    ensures { ReadIsReadable }
{}

// Each refusal goes by its number.
#[tactic(auto, using(crate::proofs::Refusals::numbered))]
pub fn refusals_numbered()
    ensures { RefusalsNumbered }
{}

// Each answer that bytes can carry is read back from its bytes.
#[tactic(auto, using(crate::proofs::AnswersBack::answers_back))]
pub fn answers_carried()
    ensures { AnswersCarried }
{}

// Where an answer is read, the bytes are its bytes.
pub fn only_answers_read()
    ensures { OnlyAnswersRead }
{}

// Two different answers have different bytes.
#[tactic(auto, using(crate::proofs::AnswersBack::answers_apart))]
pub fn answers_told_apart()
    ensures { AnswersToldApart }
{}

// An answer's bytes are bytes.
#[tactic(auto, using(crate::proofs::AnswersBack::answers_bytes))]
pub fn answers_are_bytes()
    ensures { AnswersAreBytes }
{}
