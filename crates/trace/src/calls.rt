//! A call made on a board, and its answer. Of the board only the promises of its calls are known here.
ghost use Rattle.std.specs.Prelude.{◌≡◌, ◌≤◌, ◌++◌, length, drop};
ghost use Rattle.analog.specs.Answers.{number_of};
ghost use Rattle.pmc330_model.specs.Board.{board_call};
ghost use Rattle.pmc330.specs.Raw.{board_of};
ghost use Rattle.trace.specs.Stated.{call_stated};
ghost use Rattle.trace.specs.Play.{answer_bytes};
ghost use Rattle.trace.specs.Replay.{is_equal};

use crate::fields;
use analog::{Answer, Refusal};
use pmc330::raw::RawBoard;

// A call with its arguments, widened as the board takes them: a trace hands over any number, and each is answered, so that a
// narrower type would ask more.
#[derive(Clone, Copy)]
pub(crate) enum Call {
    Read { width: u32, offset: u32 },
    Write { width: u32, offset: u32, value: u32 },
    Input { channel: u32, microvolts: i32 },
    Advance { ticks: u32 },
    Trigger,
    Reset,
    Look { slot: u32 },
    Clear { slot: u32 },
}

impl Call {
    // The call made on a board.
    #[tactic(auto, using(pmc330_model::proofs::Looks::looks_change_nothing))]
    #[inline(always)]
    pub(crate) fn made_on(self, board: &mut RawBoard) -> Answer
        ensures answer { result ≡ (board_call (board_of board.old) (call_stated self)).answer }
        ensures board { board_of board.new ≡ (board_call (board_of board.old) (call_stated self)).board }
    {
        match self {
            Call::Read { width, offset } => rebuilt(board.read(width, offset)),
            Call::Write {
                width,
                offset,
                value,
            } => rebuilt(board.write(width, offset, value)),
            Call::Input {
                channel,
                microvolts,
            } => board.input(channel, microvolts),
            Call::Advance { ticks } => rebuilt(board.advance(ticks)),
            Call::Trigger => rebuilt(board.trigger()),
            Call::Reset => board.reset(),
            Call::Look { slot } => board.look(slot),
            Call::Clear { slot } => board.clear(slot),
        }
    }
}

// The same answer, built anew: its parts are then read as they were written, and not all at once, for which the processor would
// wait (tried without: a read took 1.1, a trigger 1.4 of the time).
fn rebuilt(answer: Answer) -> Answer
    ensures { result ≡ answer }
{
    match answer {
        Ok(value) => Ok(value),
        Err(refusal) => Err(refusal),
    }
}

// No `From`: an answer is std's Result, whose conversions stand elsewhere.
fn number_of(answer: Answer) -> u8
    ensures { result ≡ number_of answer }
{
    answer.err().map_or(0, Refusal::number)
}

// Whether an answer is equal to a recorded one: in number, and in the low 16 bits of value.
#[tactic(auto, using(crate::proofs::FieldLaws::first_byte))]
pub(crate) fn is_equal(answer: Answer, body: &[u8]) -> bool
    requires { length body.now ≡ 5 }
    ensures { result ≡ is_equal answer body.now }
{
    number_of(answer) == body[0]
        && answer.unwrap_or(0) % 65_536 == fields::number::<4>(body, 1) % 65_536
}

// The answer's five bytes at the front of what is left of the buffer.
pub(crate) fn put(rest: &mut [u8], answer: Answer)
    requires { 5 ≤ length rest.old }
    ensures { rest.new ≡ answer_bytes answer ++ drop 5 rest.old }
{
    rest[0] = number_of(answer);
    rest[1..5].copy_from_slice(&answer.unwrap_or(0).to_le_bytes());
}
