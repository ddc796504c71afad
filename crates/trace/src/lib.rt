//! The trace player: a trace's calls, made on a new board, and their answers in the lent buffer, or compared with recorded ones.
#![tactic(auto)]

mod calls;
mod fields;
pub mod theorems;

ghost use Rattle.std.specs.Prelude.{◌≡◌, ◌*◌, ◌≤◌, length};
ghost use Rattle.pmc330_model.specs.Board.{answers_of};
ghost use Rattle.trace.specs.Fields.{range_of, fields_after, calls_of};
ghost use Rattle.trace.specs.Play.{in_buffer, played, played_buffer};
ghost use Rattle.trace.specs.Replay.{comparisons_from, first_difference, replayed};

use crate::fields::Checked;
use analog::Refusal;
use pmc330::raw::RawBoard;

/// The longest trace that is taken, in bytes.
pub const LONGEST: usize = 16_777_216;

/// What a replay of a trace finds. Answers agree in number and in the low 16 bits of value.
#[derive(Clone, Copy, Debug, PartialEq, Eq)]
pub enum Replayed {
    /// All recorded answers are those of their calls: how many there are.
    Agree(u32),
    /// The first call whose answer is not the recorded one: its index among all calls, from 1, and the count of recorded answers
    /// up to and including its own.
    Differs { index: u32, count: u32 },
}

// The calls of a checked trace, made on a new board. Each answer goes into what is left of the buffer, and recorded ones are
// passed over.
fn play_calls(trace: Checked, answers: &mut [u8])
    requires { 5 * trace.calls ≤ length answers.old }
    ensures { answers.new ≡ in_buffer (answers_of (range_of trace.entry.trace.now) (calls_of trace.entry.trace.now)) answers.old }
{
    let mut board = RawBoard::default();
    trace.open(&mut board);
    let mut done: usize = 0;
    for field in trace.fields() {
        if let Some(call) = field.call() {
            let answer = call.made_on(&mut board);
            calls::put(&mut answers[done..], answer);
            done += 5;
        }
    }
}

// The calls of a checked trace, made on a new board. Each recorded answer is compared with that of the call before it, up to the
// first difference.
fn replay_calls(trace: Checked) -> Replayed
    ensures { result ≡ first_difference 0 (comparisons_from 0 (answers_of (range_of trace.entry.trace.now) (calls_of trace.entry.trace.now)) (fields_after trace.entry.trace.now)) }
{
    let mut board = RawBoard::default();
    trace.open(&mut board);
    let mut index: u32 = 0;
    let mut count: u32 = 0;
    let mut answer = Ok(0);
    for field in trace.fields() {
        if let Some(call) = field.call() {
            answer = call.made_on(&mut board);
            index += 1;
        } else {
            count += 1;
            if !calls::is_equal(answer, field.body) {
                return Replayed::Differs { index, count };
            }
        }
    }
    Replayed::Agree(count)
}

/// Plays a trace on a new board of its heading's range: how many calls are answered. Each answer is put into `answers`, five
/// bytes one after the other: its number, and its value low byte first; bytes past the last stay. A call that is refused has its
/// answer too, and the calls after it are made. Refused with 18, 19, 26 or 20, `answers` stays.
pub fn play(trace: &[u8], answers: &mut [u8]) -> Result<u32, Refusal>
    ensures result { result ≡ played trace.now (length answers.old) }
    ensures buffer { answers.new ≡ played_buffer trace.now answers.old }
{
    let checked = Checked::try_from(trace)?;
    if answers.len() < 5 * checked.calls {
        return Err(Refusal::ShortBuffer);
    }
    play_calls(checked, answers);
    Ok(checked.calls as u32)
}

/// Replays a recording on a new board of its heading's range: the first call whose answer is not the recorded one, or that all
/// agree. Refused with 18, 19 or 26.
pub fn replay(trace: &[u8]) -> Result<Replayed, Refusal>
    ensures { result ≡ replayed trace.now }
{
    Ok(replay_calls(Checked::try_from(trace)?))
}
