//! The board's calls, by value. Each is equal to its definition in pmc330_model: the call is made in place on a board as C holds
//! it, made of the record, and the record made of it again. Widths, offsets and the like are any numbers: a wrong one is refused, as C's is.
#![tactic(auto)]

mod access;
mod map;
pub mod raw;
mod widths;
mod words;

ghost use Rattle.std.specs.Prelude.{◌≡◌};
ghost use Rattle.pmc330_model.specs.Board.{read_call, write_call, input_call, advance_call, trigger_call, reset_call, look_call, clear_call, new_call, request_line, next_store, if_any};

use analog::Answer;
use pmc330_model::{Board, Look, Reply};
use raw::RawBoard;

/// A new board of a range: 0 is ±5 V, 1 ±10 V, 2 0 to 5 V, 3 0 to 10 V. Refused with 14, it is a new one of range 0.
pub fn new(range: u32) -> Reply
    ensures { result ≡ new_call range }
{
    let mut raw = RawBoard::default();
    let answer = raw.open(range);
    Reply {
        board: Board::from(&raw),
        answer,
    }
}

/// A register read, 8, 16 or 32 bits wide, at a byte offset of 0 to 255: what was read. Refused with 1, 2, 3 or 5.
pub fn read(b: Board, width: u32, offset: u32) -> Reply
    ensures { result ≡ read_call b width offset }
{
    let mut raw = RawBoard::from(b);
    let answer = raw.read(width, offset);
    Reply {
        board: Board::from(&raw),
        answer,
    }
}

/// A register write, likewise, of a value that fits the width. Refused with 1 to 10.
pub fn write(b: Board, width: u32, offset: u32, value: u32) -> Reply
    ensures { result ≡ write_call b width offset value }
{
    let mut raw = RawBoard::from(b);
    let answer = raw.write(width, offset, value);
    Reply {
        board: Board::from(&raw),
        answer,
    }
}

/// A channel's input, 0 to 31, changes: -35,000,000 to 55,000,000 uV. Refused with 11 or 12.
pub fn input(b: Board, channel: u32, microvolts: i32) -> Reply
    ensures { result ≡ input_call b channel microvolts }
{
    let mut raw = RawBoard::from(b);
    let answer = raw.input(channel, microvolts);
    Reply {
        board: Board::from(&raw),
        answer,
    }
}

/// Time passes, up to 16,777,216 ticks of 125 ns: the stores made in them. Refused with 13.
pub fn advance(b: Board, ticks: u32) -> Reply
    ensures { result ≡ advance_call b ticks }
{
    let mut raw = RawBoard::from(b);
    let answer = raw.advance(ticks);
    Reply {
        board: Board::from(&raw),
        answer,
    }
}

/// An external trigger: always accepted.
pub fn trigger(b: Board) -> Reply
    ensures { result ≡ trigger_call b }
{
    let mut raw = RawBoard::from(b);
    let answer = raw.trigger();
    Reply {
        board: Board::from(&raw),
        answer,
    }
}

/// A reset keeps the range and the inputs: always accepted.
pub fn reset(b: Board) -> Reply
    ensures { result ≡ reset_call b }
{
    let mut raw = RawBoard::from(b);
    let answer = raw.reset();
    Reply {
        board: Board::from(&raw),
        answer,
    }
}

/// A look at a slot, 0 to 31: its code, 65,536 more if New, 131,072 more if Missed. It changes nothing. Refused with 22.
#[tactic(auto, using(pmc330_model::proofs::Looks::looks_change_nothing))]
pub fn look(b: Board, slot: u32) -> Look
    ensures { result ≡ look_call b slot }
{
    let answer = RawBoard::from(b).look(slot);
    Look { board: b, answer }
}

/// A clear of a slot, 0 to 31: its New and Missed bits, as a mailbox read clears them. Refused with 22.
pub fn clear(b: Board, slot: u32) -> Reply
    ensures { result ≡ clear_call b slot }
{
    let mut raw = RawBoard::from(b);
    let answer = raw.clear(slot);
    Reply {
        board: Board::from(&raw),
        answer,
    }
}

/// The request line, up where interrupts are enabled and one is pending.
pub fn request_line(b: Board) -> bool
    ensures { result ≡ request_line b }
{
    RawBoard::from(b).request_line()
}

/// The ticks to the next store if only time passes; none if the longest advance makes none, and so, after any list of calls, if no
/// store is to come.
pub fn next_store(b: Board) -> Option<u32>
    ensures { result ≡ if_any (next_store b) }
{
    RawBoard::from(b).next_store()
}
