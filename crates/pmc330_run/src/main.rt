//! Plays the trace on standard input, of which it takes the first 32,768 bytes, and prints a line for each call, or one line for a
//! refused trace.
//! A read or a write that fails ends it with that error.
#![tactic(auto)]

ghost use Rattle.std.specs.Prelude.{take, IfSome, OnOk};
ghost use Rattle.std.specs.Io.KnownBytes.{Appends};
ghost use Rattle.pmc330_run.specs.Printed.{outcome_text, printed_of};

use analog::Refusal;
use lines::{CallLines, Line};
use reads::MOST_BYTES;
use std::io;
use std::io::{Read, Write};

// The heading has 8 bytes and each call at least 3.
const MOST_CALLS: usize = (MOST_BYTES - 8) / 3;

const ANSWER_BYTES: usize = 5 * MOST_CALLS;

// A line has at most 32 bytes.
const TEXT_BYTES: usize = 32 * MOST_CALLS;

// The text is written out at once: standard output has no buffer.
fn print<W: Write>(
    output: &mut W,
    played: Result<u32, Refusal>,
    answers: &[u8; ANSWER_BYTES],
) -> io::Result<()>
    ensures { OnOk result (Appends (W.contents output.old) (W.contents output.new) (outcome_text played answers.now)) }
{
    match played {
        Ok(calls) => {
            let mut text = [0u8; TEXT_BYTES];
            let end = CallLines { answers, calls }.put(&mut text);
            output.write_all(&text[..end])
        }
        Err(refusal) => {
            let number = refusal.number();
            Line::Refused { number }.write_to(output)
        }
    }
}

// Where the bytes of the input are known, so is what is printed.
fn run<R: Read, W: Write>(input: &mut R, output: &mut W) -> io::Result<()>
    ensures { IfSome (R.remaining input.old) (λ bytes. OnOk result
        (Appends (W.contents output.old) (W.contents output.new) (printed_of (take 32768 bytes)))) }
{
    let mut bytes = [0u8; MOST_BYTES];
    let n = reads::read_full(input, &mut bytes)?;
    let mut answers = [0u8; ANSWER_BYTES];
    let played = trace::play(&bytes[..n], &mut answers);
    print(output, played, &answers)
}

fn main(rt: HostRuntime) -> io::Result<()> {
    run(&mut rt.stdin(), &mut rt.stdout())
}
