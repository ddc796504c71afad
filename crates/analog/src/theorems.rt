//! What is proved of every run: each theorem is the contract of a function that does nothing, so that it is listed with the
//! functions and cannot be lost.
#![tactic(auto)]

ghost use Rattle.analog.specs.Sentences.{EveryCorrection};
ghost use Rattle.analog.specs.Bench.{AnalogCases};

/// Sentence 1 of the two-point correction, on any arguments: it is refused exactly if one of its questions is answered with
/// no, with that question's number and value 0.
pub fn correction_answered()
    ensures { EveryCorrection }
{}

/// Cases worked by hand, computed by the definitions: one table with one claim.
pub fn analog_cases()
    ensures { AnalogCases }
{}
