//! What is proved of every run: each theorem is the contract of a function that does nothing, so that it is listed with the
//! functions and cannot be lost.
#![tactic(auto)]

ghost use Rattle.lines.specs.Text.{EveryTextFits, LineExamples};

/// 32 bytes have room for the line of a call.
pub fn text_fits()
    ensures { EveryTextFits }
{}

/// Lines that are printed, computed by the definitions.
pub fn line_examples()
    ensures { LineExamples }
{}
