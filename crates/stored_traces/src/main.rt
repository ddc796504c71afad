//! Plays stored traces; the checker wrote both what is read here and what must come out, its file 'stdout'.
//! Read, over and over: the trace's length and the answer buffer's, two bytes each, low byte first; the trace; the buffer.
//! Written for each: the result as 16 hexadecimal digits, and the buffer after the call.
//! A read or a write that fails ends it with that error.
#![tactic(auto)]

use analog::packed;
use reads::read_full;
use std::io;
use std::io::{Read, Write};

// Reads a trace and a buffer of these lengths, plays the one into the other, and writes what came.
fn play_one<R: Read, W: Write>(
    input: &mut R,
    output: &mut W,
    trace: &mut [u8],
    answers: &mut [u8],
) -> io::Result<()> {
    read_full(input, trace)?;
    read_full(input, answers)?;
    let result = packed(trace::play(trace, answers));
    write!(output, "{result:016x}")?;
    output.write_all(answers)
}

// Plays the next stored trace, or answers that there is none.
fn play_next<R: Read, W: Write>(input: &mut R, output: &mut W) -> io::Result<bool> {
    let mut lengths = [0u8; 4];
    if read_full(input, &mut lengths)? < lengths.len() {
        return Ok(false);
    }
    let [trace_low, trace_high, room_low, room_high] = lengths;
    let length = usize::from(u16::from_le_bytes([trace_low, trace_high]));
    let room = usize::from(u16::from_le_bytes([room_low, room_high]));
    let mut trace = [0u8; 65536];
    let mut answers = [0u8; 65536];
    play_one(input, output, &mut trace[..length], &mut answers[..room])?;
    Ok(true)
}

// It stops after more traces than are stored, at the latest.
fn main(rt: HostRuntime) -> io::Result<()> {
    let (mut input, mut output) = (rt.stdin(), rt.stdout());
    for _ in 0..65536 {
        if !play_next(&mut input, &mut output)? {
            break;
        }
    }
    Ok(())
}
