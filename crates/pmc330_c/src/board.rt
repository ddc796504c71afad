//! The board that C holds: the calls in place, each answered with 256 × value + number.
//! Widths, offsets, slots and the like are any numbers that C hands over, and a wrong one is refused.
ghost use Rattle.std.specs.Prelude.{◌≡◌};
ghost use Rattle.pmc330_model.specs.Board.{request_line, next_store};
ghost use Rattle.pmc330_model.specs.Calls.{read, write, input, advance, trigger, reset, look, clear};
ghost use Rattle.pmc330_model.specs.Words.{to_bit};
ghost use Rattle.pmc330.specs.Raw.{board_of};
ghost use Rattle.pmc330_c.specs.Stepping.{Stepped, Opened};

use analog::packed;
use pmc330::raw::RawBoard;

/// A new board of a range, 0 to 3, in place of what was there. Refused with 14, that stays.
#[unsafe(no_mangle)]
pub extern "C" fn pmc330_open(board: &mut RawBoard, range: u32) -> u64
    ensures { Opened range board.old result board.new }
{
    packed(board.open(range))
}

/// A register read, 8, 16 or 32 bits wide, at a byte offset of 0 to 255: what was read. Refused with 1, 2, 3 or 5.
#[unsafe(no_mangle)]
pub extern "C" fn pmc330_read(board: &mut RawBoard, width: u32, offset: u32) -> u64
    ensures { Stepped (read width offset) board.old result board.new }
{
    packed(board.read(width, offset))
}

/// A register write, likewise, of a value that fits the width. Refused with 1 to 10.
#[unsafe(no_mangle)]
pub extern "C" fn pmc330_write(board: &mut RawBoard, width: u32, offset: u32, value: u32) -> u64
    ensures { Stepped (write width offset value) board.old result board.new }
{
    packed(board.write(width, offset, value))
}

/// A channel's input, 0 to 31, changes: -35,000,000 to 55,000,000 uV. Refused with 11 or 12.
#[unsafe(no_mangle)]
pub extern "C" fn pmc330_input(board: &mut RawBoard, channel: u32, microvolts: i32) -> u64
    ensures { Stepped (input channel microvolts) board.old result board.new }
{
    packed(board.input(channel, microvolts))
}

/// Time passes, up to 16,777,216 ticks of 125 ns: the stores made in them. Refused with 13.
#[unsafe(no_mangle)]
pub extern "C" fn pmc330_advance(board: &mut RawBoard, ticks: u32) -> u64
    ensures { Stepped (advance ticks) board.old result board.new }
{
    packed(board.advance(ticks))
}

/// An external trigger: always accepted.
#[unsafe(no_mangle)]
pub extern "C" fn pmc330_trigger(board: &mut RawBoard) -> u64
    ensures { Stepped trigger board.old result board.new }
{
    packed(board.trigger())
}

/// A reset keeps the range and the inputs: always accepted.
#[unsafe(no_mangle)]
pub extern "C" fn pmc330_reset(board: &mut RawBoard) -> u64
    ensures { Stepped reset board.old result board.new }
{
    packed(board.reset())
}

/// A look at a slot, 0 to 31: its code, 65,536 more if New, 131,072 more if Missed. It changes nothing. Refused with 22.
#[tactic(auto, using(pmc330_model::proofs::Looks::looks_change_nothing))]
#[unsafe(no_mangle)]
pub extern "C" fn pmc330_look(board: &RawBoard, slot: u32) -> u64
    ensures { Stepped (look slot) board.now result board.now }
{
    packed(board.look(slot))
}

/// A clear of a slot, 0 to 31: its New and Missed bits, as a mailbox read clears them. Refused with 22.
#[unsafe(no_mangle)]
pub extern "C" fn pmc330_clear(board: &mut RawBoard, slot: u32) -> u64
    ensures { Stepped (clear slot) board.old result board.new }
{
    packed(board.clear(slot))
}

/// The request line, 0 or 1.
#[unsafe(no_mangle)]
pub extern "C" fn pmc330_line(board: &RawBoard) -> u32
    ensures { result ≡ to_bit (request_line (board_of board.now)) }
{
    u32::from(board.request_line())
}

/// The ticks to the next store if only time passes; 0, since C has no Option, if the longest advance makes none, and so, after any
/// list of calls, if no store is to come.
#[unsafe(no_mangle)]
pub extern "C" fn pmc330_next_store(board: &RawBoard) -> u32
    ensures { result ≡ next_store (board_of board.now) }
{
    board.next_store().unwrap_or(0)
}
