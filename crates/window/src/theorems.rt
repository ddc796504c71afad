//! What is proved of every run: each theorem is the contract of a function that does nothing, so that it is listed with the
//! functions and cannot be lost.
#![tactic(auto)]

ghost use Rattle.window.specs.Sentences.{EveryWindow, WindowExample};

/// The running average, of any length, run of codes and output: refused, the output stays as it was; accepted, each code's
/// place has the sum of the last codes up to it, the value is how many the last sum holds, and the places past the run
/// stay.
pub fn windows_answered()
    ensures { EveryWindow }
{}

/// The codes 1 to 10 through a window of 8, computed by the definitions.
pub fn window_example()
    ensures { WindowExample }
{}
