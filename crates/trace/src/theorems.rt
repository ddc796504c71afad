//! What is proved of every run: each theorem is the contract of a function that does nothing, so that it is listed with the
//! functions and cannot be lost.
#![tactic(auto)]

ghost use Rattle.trace.specs.Sentences.{EveryRefusedTrace, EveryAcceptedTrace, EveryPackedPlay, EveryWalk, EveryPassedOver, EveryRefusedReplay, EveryReplay, EveryPackedReplay};
ghost use Rattle.trace.specs.Bench.{TraceCases};

/// Sentence 1 of a trace: refused, its result is the number of the first question that is answered with no, and the buffer
/// stays as it was.
pub fn traces_refused()
    ensures { EveryRefusedTrace }
{}

/// Accepted, the result is 256 × its calls, and the buffer begins with the answers that the logbook of its calls gives.
pub fn traces_accepted()
    ensures { EveryAcceptedTrace }
{}

/// What the player answers is that result, as C gets it.
pub fn plays_packed()
    ensures { EveryPackedPlay }
{}

/// Every field of a trace is looked at.
pub fn walks_enough()
    ensures { EveryWalk }
{}

/// The player passes over recorded answers: a trace without them is played alike.
pub fn answers_passed_over()
    ensures { EveryPassedOver }
{}

/// A refused replay has the number of the first question that is answered with no.
pub fn replays_refused()
    ensures { EveryRefusedReplay }
{}

/// A replay says that all recorded answers agree, or which is the first that differs, and how many were compared.
pub fn replays_answered()
    ensures { EveryReplay }
{}

/// Number, index and count can be read back from the one number that C gets.
pub fn replays_packed()
    ensures { EveryPackedReplay }
{}

/// Cases worked by hand, computed by the definitions: one table with one claim.
pub fn trace_cases()
    ensures { TraceCases }
{}
