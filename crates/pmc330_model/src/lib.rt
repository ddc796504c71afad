//! The records of the virtual board. Every definition about them is in specs/.
#![tactic(auto)]

pub mod theorems;

use analog::Answer;
use schedule::Timer;

/// What a byte offset below 256 belongs to (data sheet, "Register map"): New Data and Missed Data have two words, Gain four,
/// and there are 32 mailboxes.
#[derive(Clone, Copy, Debug, PartialEq, Eq)]
pub enum Register {
    // the map gives every offset a Register, and with an Option its look-up would make a Some of each
    /// No register at all.
    Unmapped,
    Interrupt,
    Control,
    Prescaler,
    Timer,
    Channels,
    StartConvert,
    /// Half 0, slots 0 to 15, or half 1, slots 16 to 31.
    NewData(u8),
    /// Half 0, slots 0 to 15, or half 1, slots 16 to 31.
    MissedData(u8),
    /// Group 0 to 3, of eight channels each.
    Gain(u8),
    /// Slot 0 to 31.
    Mailbox(u8),
}

/// The registers as written, but for the gains.
#[derive(Clone, Copy, Debug, PartialEq, Eq)]
pub struct Registers {
    /// Whether a pending interrupt raises the request line.
    pub enable: bool,
    /// The word of Control; bits 6, 7, 14 and 15 are kept as 0.
    pub control: u16,
    /// Prescaler × timer is the interval, in ticks of 125 ns.
    pub prescaler: u8,
    pub timer: u16,
    /// The first channel of a pass, 0 to 31 after any list of calls.
    pub start: u8,
    /// The last channel of a pass, 0 to 31 after any list of calls.
    pub end: u8,
}

/// Where a cycle stands. Times are relative and bounded: a list of calls has no bound, and so no tick count fits.
/// C holds these fields with any contents, so 0 stands for none here, and a slot stays beside `waiting`.
/// The default is the idle cycle.
#[derive(Clone, Copy, Debug, Default, PartialEq, Eq)]
pub struct Cycle {
    /// It runs while a cycle does. In external trigger only `lead` is 0, and `lag` the ticks until a trigger may be taken.
    pub timer: Timer,
    /// A code was taken in this cycle and is not stored yet.
    pub waiting: bool,
    /// The slot of that code.
    pub slot: u8,
    /// Whether the pass of the next conversion is odd, if differential.
    pub odd: bool,
}

/// The board, passed by value. One array for each thing that slots and channels have.
#[derive(Clone, Copy)]
pub struct Board {
    /// 0 is ±5 V, 1 is ±10 V, 2 is 0 to 5 V, 3 is 0 to 10 V; a board that C holds may have any number here.
    pub range: u8,
    /// The voltage at each channel's input, in microvolts: -35,000,000 to 55,000,000 after any list of calls.
    pub inputs: [i32; 32],
    /// The gain field of each channel, 0 to 3: gain 1, 2, 4 or 8.
    pub gains: [u8; 32],
    /// The code in each mailbox, in the format that it was stored in.
    pub codes: [u16; 32],
    /// Stores in each slot since the last read, clear, cycle start or reset, standing still at 2: New from 1 on, Missed at 2.
    pub unread: [u8; 32],
    /// Whether an interrupt is pending.
    pub pending: bool,
    pub registers: Registers,
    /// The straight code last taken since the last reset, 0 if none.
    pub taken: u16,
    pub cycle: Cycle,
}

/// What a call hands back: where it is refused, the board that was handed in.
#[derive(Clone, Copy)]
pub struct Reply {
    pub board: Board,
    pub answer: Answer,
}

/// What a look hands back: a record of its own, since a look may come to say more.
#[derive(Clone, Copy)]
pub struct Look {
    pub board: Board,
    pub answer: Answer,
}
