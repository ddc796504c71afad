//! What is proved of every run: each theorem is the contract of a function that does nothing, so that it is listed with the
//! functions and cannot be lost.
#![tactic(auto)]

ghost use Rattle.pmc330_c.specs.Stepping.{EverySteps, EveryRefusedStep, EveryRefusedOpen};

/// From an opened board on, any list of calls of a C program gives the answers and the board of sentences 1 to 3.
pub fn steps_seen()
    ensures { EverySteps }
{}

/// A refused call leaves every byte of the board that C holds as it was, and gives the number of the first question that is
/// answered with no.
pub fn refused_steps()
    ensures { EveryRefusedStep }
{}

/// A board that is refused for its range is refused with 14, and every byte stays as it was.
pub fn refused_opens()
    ensures { EveryRefusedOpen }
{}
