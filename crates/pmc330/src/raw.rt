//! The board that C holds, changed in place. Whatever its bytes are, they hold a board, and each call does to it what its definition
//! says (`Does`); a refused call leaves every byte.
#![tactic(auto, unfolding(pmc330_model::specs::Questions::call_questions, pmc330_model::specs::Board::after_call, pmc330_model::specs::Board::value_of_call, pmc330_model::specs::Board::board_call, analog::specs::Answers::asked, analog::specs::Answers::answered, analog::specs::Answers::first_no))]

mod fields;
mod scan;
mod starts;
mod time;
mod upcoming;
mod writes;

ghost use Rattle.std.specs.Prelude.{◌≡◌, false, true, pos, replicate};
ghost use Rattle.analog.specs.Answers.{is_accepted};
ghost use Rattle.pmc330_model.specs.Board.{new_board, cleared_board, request_line, look_call, open_call};
ghost use Rattle.pmc330_model.specs.Calls.{input, clear, reset};
ghost use Rattle.pmc330.specs.Raw.{Plain, board_of, Does};

use crate::words;
use analog::{Answer, Refusal};
use pmc330_model::{Board, Cycle};

/// A board as C holds it. A flag is set by any byte but 0; every other byte is taken as it is. A program makes one by `default` or
/// `from` and changes it by its calls alone.
#[repr(C)]
#[derive(Drop)]
pub struct RawBoard {
    /// The voltage at each channel's input, in microvolts.
    pub inputs: [i32; 32],
    /// Ticks to the next beginning of a conversion; 0: none is to come.
    pub lead: u32,
    /// Ticks to the store of the conversion in progress, in external trigger only until a trigger may be taken; 0: none.
    pub lag: u32,
    /// The code in each slot's mailbox, in the format that it was stored in.
    pub codes: [u16; 32],
    /// The word of Control.
    pub control: u16,
    /// Prescaler × timer is the interval, in ticks of 125 ns.
    pub timer: u16,
    /// The straight code last taken.
    pub taken: u16,
    /// The gain field of each channel, 0 to 3.
    pub gains: [u8; 32],
    /// Stores in each slot since its last read, up to 2: New from 1 on, Missed at 2.
    pub unread: [u8; 32],
    /// 0 is ±5 V, 1 is ±10 V, 2 is 0 to 5 V, 3 is 0 to 10 V.
    pub range: u8,
    pub prescaler: u8,
    /// The first channel of a pass.
    pub start: u8,
    /// The last channel of a pass.
    pub end: u8,
    /// Whether a pending interrupt raises the request line.
    pub enable: u8,
    /// Whether an interrupt is pending.
    pub pending: u8,
    /// Whether a cycle runs.
    pub running: u8,
    /// Whether a code was taken in this cycle and is not stored yet.
    pub waiting: u8,
    /// The slot of that code.
    pub slot: u8,
    /// Whether its store ends a pass.
    pub ends: u8,
    /// The next conversion's place in its pass, from 0.
    pub index: u8,
    /// Whether that pass is odd, if differential.
    pub odd: u8,
    /// Fills the struct, and means nothing. A new board has 0 here, and no call on it changes that.
    pub spare: u16,
}

// The inputs of a new board. Out of line: where the compiler sees that a whole struct becomes 0, it calls C's `memset`, and the
// archive is to need nothing from outside.
#[inline(never)]
fn no_inputs() -> [i32; 32]
    ensures { result ≡ replicate 32 (pos 0) }
{
    [0; 32]
}

// The board that a record holds.
impl From<Board> for RawBoard {
    ghost from_gives = { λ b raw. (board_of raw ≡ b) × Plain raw };

    fn from(b: Board) -> RawBoard {
        let r = b.registers;
        let c = b.cycle;
        let t = c.timer;
        let inputs = b.inputs;
        let codes = b.codes;
        let gains = b.gains;
        let unread = b.unread;
        RawBoard {
            inputs,
            lead: t.lead,
            lag: t.lag,
            codes,
            control: r.control,
            timer: r.timer,
            taken: b.taken,
            gains,
            unread,
            range: b.range,
            prescaler: r.prescaler,
            start: r.start,
            end: r.end,
            enable: u8::from(r.enable),
            pending: u8::from(b.pending),
            running: u8::from(t.running),
            waiting: u8::from(c.waiting),
            slot: c.slot,
            ends: u8::from(t.ends),
            index: t.index,
            odd: u8::from(c.odd),
            spare: 0, // equal boards have equal bytes
        }
    }
}

// The board that is held, as a record.
impl From<&RawBoard> for Board {
    ghost from_gives = { λ raw b. b ≡ board_of raw.now };

    fn from(raw: &RawBoard) -> Board {
        Board {
            range: raw.range,
            inputs: raw.inputs,
            gains: raw.gains,
            codes: raw.codes,
            unread: raw.unread,
            pending: raw.pending != 0,
            registers: raw.registers(),
            taken: raw.taken,
            cycle: Cycle {
                timer: raw.timer(),
                waiting: raw.waiting != 0,
                slot: raw.slot,
                odd: raw.odd != 0,
            },
        }
    }
}

// By hand: a derived one promises its fields, and each caller would need a law that they are a new board. Out of line, as
// `no_inputs` is: in line the struct would be copied into its place, by C's `memcpy`.
impl Default for RawBoard {
    ghost is_default = { λ raw. (board_of raw ≡ new_board 0) × Plain raw };

    #[inline(never)]
    fn default() -> Self {
        RawBoard {
            inputs: no_inputs(),
            lead: 0,
            lag: 0,
            codes: [0; 32],
            control: 0,
            timer: 0,
            taken: 0,
            gains: [0; 32],
            unread: [0; 32],
            range: 0,
            prescaler: 0,
            start: 0,
            end: 0,
            enable: 0,
            pending: 0,
            running: 0,
            waiting: 0,
            slot: 0,
            ends: 0,
            index: 0,
            odd: 0,
            spare: 0,
        }
    }
}

impl RawBoard {
    /// A channel's input, 0 to 31, changes: -35,000,000 to 55,000,000 uV. Refused with 11 or 12.
    pub fn input(&mut self, channel: u32, microvolts: i32) -> Answer
        ensures { Does (input channel microvolts) self.old result self.new }
    {
        if 31 < channel {
            return Err(Refusal::BadChannel);
        }
        if microvolts < -35_000_000 || 55_000_000 < microvolts {
            return Err(Refusal::BadVoltage);
        }
        self.inputs[channel as usize] = microvolts;
        Ok(0)
    }

    /// A clear of a slot, 0 to 31: its New and Missed bits, as a mailbox read clears them. Refused with 22.
    pub fn clear(&mut self, slot: u32) -> Answer
        ensures { Does (clear slot) self.old result self.new }
    {
        if 31 < slot {
            return Err(Refusal::BadSlot);
        }
        self.unread[slot as usize] = 0;
        Ok(0)
    }

    /// A look at a slot, 0 to 31: its code, 65,536 more if New, 131,072 more if Missed. It changes nothing. Refused with 22.
    pub fn look(&self, slot: u32) -> Answer
        ensures { result ≡ (look_call (board_of self.now) slot).answer }
    {
        if 31 < slot {
            return Err(Refusal::BadSlot);
        }
        let at = slot as usize;
        Ok(words::look_value(self.codes[at], self.unread[at]))
    }

    // All is 0 but the range and the inputs.
    fn set_idle(&mut self)
        ensures board { board_of self.new ≡ cleared_board self.old.range self.old.inputs }
        ensures spare { self.new.spare ≡ self.old.spare }
        ensures plain { self.old.spare ≡ 0 → Plain self.new }
    {
        self.gains = [0; 32];
        self.codes = [0; 32];
        self.unread = [0; 32];
        self.control = 0;
        self.timer = 0;
        self.taken = 0;
        self.prescaler = 0;
        self.start = 0;
        self.end = 0;
        self.enable = 0;
        self.pending = 0;
        self.running = 0;
        self.lead = 0;
        self.lag = 0;
        self.waiting = 0;
        self.slot = 0;
        self.ends = 0;
        self.index = 0;
        self.odd = 0;
    }

    /// A reset keeps the range and the inputs: always accepted.
    pub fn reset(&mut self) -> Answer
        ensures { Does reset self.old result self.new }
    {
        self.set_idle();
        Ok(0) // a reset is asked nothing
    }

    /// A new board of a range, 0 to 3, in place of whatever was there. Refused with 14, that stays.
    #[tactic(auto, unfolding(analog::specs::Answers::asked, analog::specs::Answers::answered, pmc330_model::specs::Questions::call_questions, pmc330_model::specs::Board::after_call, pmc330_model::specs::Board::board_call, analog::specs::Answers::first_no, pmc330_model::specs::Board::value_of_call))]
    pub fn open(&mut self, range: u32) -> Answer
        ensures answer { result ≡ (open_call (board_of self.old) range).answer }
        ensures board { board_of self.new ≡ (open_call (board_of self.old) range).board }
        ensures kept { is_accepted result ≡ false → self.new ≡ self.old }
        ensures plain { is_accepted result ≡ true → Plain self.new }
    {
        if 3 < range {
            return Err(Refusal::BadRange);
        }
        self.range = range as u8;
        self.inputs = no_inputs();
        self.spare = 0;
        self.set_idle();
        Ok(0)
    }

    /// The request line, up where interrupts are enabled and one is pending.
    pub fn request_line(&self) -> bool
        ensures { result ≡ request_line (board_of self.now) }
    {
        self.enable != 0 && self.pending != 0
    }
}
