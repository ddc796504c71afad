//! Replays the recording on standard input, of which it takes the first 32,768 bytes, and prints one line: that all agree, the
//! first call whose answer is not the recorded one, or why the trace is refused.
//! A read or a write that fails ends it with that error.
#![tactic(auto)]

ghost use Rattle.std.specs.Prelude.{◌≡◌, take, OnOk, IfSome};
ghost use Rattle.std.specs.Io.KnownBytes.{Appends};
ghost use Rattle.lines.specs.Text.{text_of};
ghost use Rattle.trace.specs.Replay.{replayed};
ghost use Rattle.pmc330_replay.specs.Printed.{printed_of};

use analog::Refusal;
use lines::Line;
use reads::MOST_BYTES;
use std::io;
use std::io::{Read, Write};
use trace::Replayed;

// No `From`: both types are other crates'.
fn line_of(replayed: Result<Replayed, Refusal>) -> Line
    ensures { text_of result ≡ printed_of replayed }
{
    match replayed {
        Ok(Replayed::Agree(count)) => Line::Agree { count },
        Ok(Replayed::Differs { index, count }) => Line::Differs { index, count },
        Err(refusal) => Line::Refused {
            number: refusal.number(),
        },
    }
}

// Where the bytes of the input are known, what is printed is the line of their replay.
fn run<R: Read, W: Write>(input: &mut R, output: &mut W) -> io::Result<()>
    ensures { IfSome (R.remaining input.old) (λ bytes. OnOk result
        (Appends (W.contents output.old) (W.contents output.new) (printed_of (replayed (take 32768 bytes))))) }
{
    let mut bytes = [0u8; MOST_BYTES];
    let n = reads::read_full(input, &mut bytes)?;
    line_of(trace::replay(&bytes[..n])).write_to(output)
}

fn main(rt: HostRuntime) -> io::Result<()> {
    run(&mut rt.stdin(), &mut rt.stdout())
}
