//! What is proved of every plan and every board: each theorem is the contract of a function that does nothing, so that it is
//! listed with the functions and cannot be lost.
#![tactic(auto)]

ghost use Rattle.schedule.specs.Sentences.{EveryTime, EverySpan, EveryRepeat, EveryConversion};

/// The timer keeps the schedule: after any number of ticks from the start of a scan, its conversions have begun and were
/// stored at the ticks that the plan's formulas give, and at no others.
pub fn times_kept()
    ensures { EveryTime }
{}

/// n ticks and then k ticks are n + k ticks, and their stores are those of both.
pub fn spans_join()
    ensures { EverySpan }
{}

/// Ticks that leave a scan as it was may be repeated without being run.
pub fn spans_repeated()
    ensures { EveryRepeat }
{}

/// A store and the next beginning in one step: where `run` takes it, it is what the ticks up to that beginning do.
pub fn conversions_join()
    ensures { EveryConversion }
{}
