//! The lines that the programs print: one for each call, or one for a refused trace; and one for a replay.
#![tactic(auto)]

pub mod theorems;

ghost use Rattle.std.specs.Prelude.{◌≡◌, ◌+◌, ◌*◌, ◌<◌, ◌≤◌, ◌%◌, ◌^◌, length, flat_map, nat_le, is_some, IfSome, OnOk};
ghost use Rattle.std.specs.Io.KnownBytes.{Appends};
ghost use Rattle.std.specs.Simd.{first_chunks};
ghost use Rattle.lines.specs.Text.{digit_of, hex_of, line_of, number_in, word_in, text_of, taken, put_lines, Begins};

use itoa::Buffer;
use std::io::Write;
use std::{array, fmt, io};

// The eight hexadecimal digits of a value.
fn hex_digits(value: u32) -> [u8; 8]
    ensures { result ≡ hex_of value }
{
    array::from_fn(|place| b"0123456789ABCDEF"[(value >> (28 - 4 * place)) as usize % 16])
}

// The parts, one after the other, in the first bytes of `out`; their count is returned, and the other bytes stay. Parts differ in
// length, so no iterator gives their places; tried with `split_at_mut`, and nothing can be said of what earlier turns put.
fn put_parts(out: &mut [u8], parts: &[&[u8]]) -> usize
    requires { length (flat_map (λ p. p.now) parts.now) ≤ length out.old }
    ensures { Begins (flat_map (λ p. p.now) parts.now) out.old out.new result }
{
    let mut at = 0;
    for part in parts {
        let end = at + part.len();
        out[at..end].copy_from_slice(part);
        at = end;
    }
    at
}

/// A line of text, with its line break: at most 32 bytes.
#[derive(Clone, Copy, Debug, PartialEq, Eq)]
pub enum Line {
    /// Of a call: its index, from 1, and its answer's number and value; an answer's bytes may hold any number.
    Call { index: u32, number: u8, value: u32 },
    /// Of a refused trace: the refusal's number, since this crate stands on none of the board's.
    Refused { number: u8 },
    /// Of a replay in which all agree: how many answers were compared.
    Agree { count: u32 },
    /// Of a replay with a difference: the index of the call, from 1, and how many answers were compared.
    Differs { index: u32, count: u32 },
}

impl Line {
    // The line of the call after the first `call` ones, by its answer.
    #[tactic(auto, using(crate::proofs::Room::length_line))]
    fn of_call(call: u32, answer: &[u8; 5]) -> Line
        requires { call + 1 < 2 ^ 32 }
        ensures text { text_of result ≡ line_of (call + 1) (number_in answer.now 0) (word_in answer.now 1) }
        ensures short { length (text_of result) ≤ 32 }
    {
        let &[number, first, second, third, fourth] = answer;
        Line::Call {
            index: call + 1,
            number,
            value: u32::from_le_bytes([first, second, third, fourth]),
        }
    }

    /// The line in the first bytes of `out`, and their count; the other bytes stay. A buffer of less than 32 bytes takes none: 0.
    // Beside `Display`, since it cannot fail. Tried, a `Display` through it needs a check of text, which may fail.
    pub fn put(self, out: &mut [u8]) -> usize
        ensures { Begins (taken (text_of self) out.old) out.old out.new result }
    {
        if out.len() < 32 {
            return 0;
        }
        let (mut first, mut second) = (Buffer::new(), Buffer::new());
        match self {
            Line::Call {
                index,
                number,
                value,
            } => {
                let index = first.format(index).as_bytes();
                let number = second.format(number).as_bytes();
                put_parts(out, &[index, b" ", number, b" ", &hex_digits(value), b"\n"])
            }
            Line::Refused { number } => {
                put_parts(out, &[b"refused ", first.format(number).as_bytes(), b"\n"])
            }
            Line::Agree { count } => {
                put_parts(out, &[b"agree ", first.format(count).as_bytes(), b"\n"])
            }
            Line::Differs { index, count } => {
                let index = first.format(index).as_bytes();
                let count = second.format(count).as_bytes();
                put_parts(out, &[b"differs ", index, b" ", count, b"\n"])
            }
        }
    }

    /// The line written out at once: `write!` writes each of its pieces by itself.
    pub fn write_to<W: Write>(self, output: &mut W) -> io::Result<()>
        ensures { OnOk result (Appends (W.contents output.old) (W.contents output.new) (text_of self)) }
    {
        let mut text = [0u8; 32];
        let end = self.put(&mut text);
        output.write_all(&text[..end])
    }
}

impl fmt::Display for Line {
    ghost use Rattle.std.specs.Prelude.{Some};
    ghost use Rattle.lines.specs.Text.{text_of};

    ghost output = { λ line. Some (text_of line) };

    #[tactic(auto, using(crate::proofs::TextLaws::decimal_same, crate::proofs::TextLaws::hex_same), unfolding(crate::specs::Text::refused_of, crate::specs::Text::agree_of, crate::specs::Text::differs_of))]
    fn fmt<W: fmt::Write>(&self, f: &mut fmt::Formatter<W>) -> fmt::Result {
        match *self {
            Line::Call {
                index,
                number,
                value,
            } => writeln!(f, "{index} {number} {value:08X}"),
            Line::Refused { number } => writeln!(f, "refused {number}"),
            Line::Agree { count } => writeln!(f, "agree {count}"),
            Line::Differs { index, count } => writeln!(f, "differs {index} {count}"),
        }
    }
}

/// A line for each of so many calls, from their answers; none where an answer is missing. A count beside the bytes: a player's
/// buffer may be longer than its answers, or shorter than they would be.
#[derive(Clone, Copy, Debug)]
pub struct CallLines<'a> {
    /// Five bytes a call: the answer's number, and its value low byte first.
    pub answers: &'a [u8],
    /// How many calls have a line.
    pub calls: u32,
}

impl<'a> CallLines<'a> {
    // The answers of the calls, where none is missing.
    #[tactic(auto, using(crate::proofs::AnswerLaws::first_of))]
    fn answered(self) -> Option<&'a [[u8; 5]]>
        ensures count { IfSome result (λ answers. length answers.now ≡ self.entry.calls) }
        ensures bytes { IfSome result (λ answers. answers.now ≡ first_chunks 5 self.entry.calls self.entry.answers.now) }
        ensures all { is_some result ≡ nat_le (5 * self.entry.calls) (length self.entry.answers.now) }
    {
        let (answers, _) = self.answers.as_chunks();
        answers.get(..self.calls as usize)
    }

    /// The lines in the first bytes of `out`, and their count of bytes; the other bytes stay. None, and 0, where an answer is
    /// missing, or where `out` has less than 32 bytes for each line.
    pub fn put(self, out: &mut [u8]) -> usize
        ensures { Begins (put_lines self.entry.answers.now self.entry.calls out.old) out.old out.new result }
    {
        let Some(answers) = self.answered() else {
            return 0;
        };
        if out.len() / 32 < answers.len() {
            return 0;
        }
        // Lines differ in length, as parts do, and the same holds of them.
        let mut at = 0;
        for (call, answer) in answers.iter().enumerate() {
            at += Line::of_call(call as u32, answer).put(&mut out[at..]);
        }
        at
    }
}

impl fmt::Display for CallLines<'_> {
    ghost use Rattle.std.specs.Prelude.{Some};
    ghost use Rattle.lines.specs.Text.{taken_lines};

    ghost output = { λ l. Some (taken_lines l.answers.now l.calls) };

    #[tactic(auto, unfolding(crate::specs::Text::lines_of))]
    fn fmt<W: fmt::Write>(&self, f: &mut fmt::Formatter<W>) -> fmt::Result {
        let Some(answers) = self.answered() else {
            return Ok(());
        };
        for (call, answer) in answers.iter().enumerate() {
            let line = Line::of_call(call as u32, answer);
            write!(f, "{line}")?;
        }
        Ok(())
    }
}
