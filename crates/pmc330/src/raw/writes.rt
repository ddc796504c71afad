//! A register is read, and a word goes into one.
#![tactic(auto, unfolding(pmc330_model::specs::Board::after_write, pmc330_model::specs::Words::with_word, analog::specs::Answers::asked))]

ghost use Rattle.std.specs.Prelude.{◌≡◌};
ghost use Rattle.pmc330_model.specs.Board.{after_read};
ghost use Rattle.pmc330_model.specs.Calls.{read, write};
ghost use Rattle.pmc330_model.specs.Questions.{has_used_codes};
ghost use Rattle.pmc330_model.specs.declared.Register.TheVariants.{Control, StartConvert};
ghost use Rattle.pmc330.specs.Raw.{Plain, board_of, Puts, Does};

use super::RawBoard;
use crate::access::Access;
use crate::{access, words};
use analog::{Answer, Refusal};
use pmc330_model::Register;

// Question 7 of Control: trigger 11, acquisition 010, scan 110 and 111 and interrupt 11 are not used.
fn has_used_codes(control: u16) -> bool
    ensures { result ≡ has_used_codes control }
{
    control / 2 % 4 != 3
        && control / 8 % 8 != 2
        && control / 0x100 % 8 <= 5
        && control / 0x1000 % 4 != 3
}

impl RawBoard {
    fn put_control(&mut self, word: u16) -> Result<(), Refusal>
        ensures { Puts Control word self.old result self.new }
    {
        let control = words::kept_control(word);
        let stops = control / 0x100 % 8 == 0;
        if self.running != 0 && !stops {
            return Err(Refusal::Busy);
        }
        if !has_used_codes(control) {
            return Err(Refusal::BadCode);
        }
        self.control = control;
        if stops {
            self.open_cycle(schedule::Timer::default());
        }
        Ok(())
    }

    fn put_start(&mut self, word: u16) -> Result<(), Refusal>
        ensures { Puts StartConvert word self.old result self.new }
    {
        if word % 2 == 0 {
            return Ok(());
        }
        if self.running != 0 {
            return Err(Refusal::Busy);
        }
        if self.scan() == 0 {
            return Err(Refusal::NoScan);
        }
        if !self.has_channels() {
            return Err(Refusal::BadChannels);
        }
        if !self.has_interval() {
            return Err(Refusal::BadInterval);
        }
        self.start();
        Ok(())
    }

    // A word goes into a register: questions 5 to 10, and the write.
    fn put(&mut self, register: Register, word: u16) -> Result<(), Refusal>
        ensures { Puts register word self.old result self.new }
    {
        match register {
            Register::NewData(_) | Register::MissedData(_) | Register::Mailbox(_) => {
                return Err(Refusal::BadDirection);
            }
            Register::Control => return self.put_control(word),
            Register::StartConvert => return self.put_start(word),
            Register::Interrupt => {
                self.enable = (word % 2) as u8;
                if word / 0x8000 % 2 == 1 {
                    self.pending = 0;
                }
            }
            _ if self.running != 0 => return Err(Refusal::Busy),
            Register::Prescaler => self.prescaler = (word / 0x100) as u8,
            Register::Timer => self.timer = word,
            Register::Channels => {
                let start = (word % 0x100) as u8;
                let end = (word / 0x100) as u8;
                if 31 < start || 31 < end {
                    return Err(Refusal::BadCode);
                }
                self.start = start;
                self.end = end;
            }
            Register::Gain(group) => words::gains_from(&mut self.gains, group, word),
            Register::Unmapped => {}
        }
        Ok(())
    }

    /// A register write, 8, 16 or 32 bits wide, at a byte offset of 0 to 255, of a value that fits the width. Refused with 1 to 10.
    pub fn write(&mut self, width: u32, offset: u32, value: u32) -> Answer
        ensures { Does (write width offset value) self.old result self.new }
    {
        let access = Access::of(width, offset)?;
        let register = access.register();
        let word = access.written_word(self.registers(), &self.gains, register, value);
        access::of_value(access.width, value)?;
        self.put(register, word)?;
        Ok(0)
    }

    // A mailbox read clears the slot's New and Missed bits.
    fn after_read(&mut self, register: Register)
        ensures board { board_of self.new ≡ after_read register (board_of self.old) }
        ensures rest { self.new ≡ record self.old { inputs = self.new.inputs; unread = self.new.unread } }
        ensures plain { Plain self.old → Plain self.new }
    {
        if let Register::Mailbox(slot) = register {
            // a test: of the elements after a `get_mut` nothing is known
            if slot < 32 {
                self.unread[usize::from(slot)] = 0;
            }
        }
    }

    /// A register read, likewise: what was read. Refused with 1, 2, 3 or 5.
    pub fn read(&mut self, width: u32, offset: u32) -> Answer
        ensures { Does (read width offset) self.old result self.new }
    {
        let access = Access::of(width, offset)?;
        let register = access.register();
        access::of_read(register)?;
        let word = words::read_word(
            self.registers(),
            self.pending != 0,
            &self.gains,
            &self.codes,
            &self.unread,
            register,
        );
        self.after_read(register);
        Ok(access.read_bytes(word))
    }
}
