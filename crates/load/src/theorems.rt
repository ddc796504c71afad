//! What is proved of every run: each theorem is the contract of a function that does nothing, so that it is listed with the
//! functions and cannot be lost.
#![tactic(auto)]

ghost use Rattle.load.specs.Sentences.{EveryXor, EveryShift, EveryLoad, EveryReadLoad, EveryUniqueLoad, EveryPlayedLoad, LoadExamples};

/// An exclusive or has 32 bits, each set where just one of the two is.
pub fn xor_by_bits()
    ensures { EveryXor }
{}

/// A shift moves each bit by so many places; to the left those past 32 bits are lost, to the right those below the lowest.
pub fn shifts_by_bits()
    ensures { EveryShift }
{}

/// Sentence 1 of a load, of any seed, range, number of calls and buffer: refused, the buffer stays as it was; accepted, it
/// begins with the trace, the value is the trace's length, and the bytes past it stay.
pub fn loads_answered()
    ensures { EveryLoad }
{}

/// Read by the player's definitions, a load is of the stated range, and its fields are the list of calls that the seed
/// gives, and no others.
pub fn loads_read()
    ensures { EveryReadLoad }
{}

/// No other bytes are a heading of that range and then those calls alone.
pub fn loads_unique()
    ensures { EveryUniqueLoad }
{}

/// The player accepts every load with 5 answer bytes a call, and answers as the logbook does.
pub fn loads_played()
    ensures { EveryPlayedLoad }
{}

/// Loads of a few calls, computed by the definitions.
pub fn load_examples()
    ensures { LoadExamples }
{}
