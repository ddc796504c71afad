//! A conversion begins, and is stored; a cycle starts; a trigger.
#![tactic(auto, unfolding(pmc330_model::specs::Board::code_taken, pmc330_model::specs::Board::stored, pmc330_model::specs::Board::started, pmc330_model::specs::Board::triggered))]

ghost use Rattle.std.specs.Prelude.{◌≡◌, eqb, true};
ghost use Rattle.pmc330_model.specs.Board.{with_timer, with_cycle, idle_cycle, code_taken, stored, begun, started, trigger_taken, armed_by_trigger, triggered};
ghost use Rattle.pmc330_model.specs.Calls.{trigger};
ghost use Rattle.pmc330_model.specs.Map.{trigger_field};
ghost use Rattle.pmc330.specs.Raw.{Plain, board_of, timer_of, Does};
ghost use Rattle.pmc330.specs.RawTime.{raw_taken, raw_put};

use super::RawBoard;
use analog::Answer;
use schedule::Timer;

impl RawBoard {
    #[inline(always)]
    pub(crate) fn timer(&self) -> Timer
        ensures { result ≡ timer_of self.now }
    {
        Timer {
            running: self.running != 0,
            lead: self.lead,
            lag: self.lag,
            ends: self.ends != 0,
            index: self.index,
        }
    }

    #[inline(always)]
    pub(crate) fn set_timer(&mut self, timer: Timer)
        ensures board { board_of self.new ≡ with_timer (board_of self.old) timer }
        ensures spare { self.new.spare ≡ self.old.spare }
        ensures plain { Plain self.old → Plain self.new }
    {
        self.running = u8::from(timer.running);
        self.lead = timer.lead;
        self.lag = timer.lag;
        self.ends = u8::from(timer.ends);
        self.index = timer.index;
    }

    // The conversion at a place of its pass takes its code, and its slot is noted; if differential, the parity turns after
    // the last one of a pass.
    #[inline(always)]
    pub(crate) fn take_code(&mut self, index: u8)
        ensures raw { self.new ≡ raw_taken index self.old }
        ensures board { board_of self.new ≡ code_taken index (board_of self.old) }
        ensures spare { self.new.spare ≡ self.old.spare }
        ensures plain { Plain self.old → Plain self.new }
    {
        let differential = self.is_differential();
        let odd = self.odd != 0;
        let channel = (u32::from(self.start) + u32::from(index)) % 32;
        let half = if differential && odd { 16 } else { 0 };
        self.taken = self.code_at(channel as usize);
        self.slot = ((channel + half) % 32) as u8;
        self.waiting = 1;
        if differential && self.end.saturating_sub(self.start) <= index {
            self.odd = u8::from(!odd);
        }
    }

    // The code last taken goes into a slot.
    #[inline(always)]
    pub(crate) fn store(&mut self, slot: u8, ends: bool)
        ensures raw { self.new ≡ raw_put slot ends self.old }
        ensures board { board_of self.new ≡ stored slot ends (board_of self.old) }
        ensures spare { self.new.spare ≡ self.old.spare }
        ensures plain { Plain self.old → Plain self.new }
    {
        let at = usize::from(slot % 32);
        self.codes[at] = self.in_format(self.taken);
        self.unread[at] = self.unread[at].saturating_add(1).min(2);
        if self.interrupts(ends) {
            self.pending = 1;
        }
    }

    // The next conversion begins.
    fn begin(&mut self)
        ensures board { board_of self.new ≡ begun (board_of self.old) }
        ensures spare { self.new.spare ≡ self.old.spare }
        ensures plain { Plain self.old → Plain self.new }
    {
        let timer = self.timer();
        let begun = timer.begun(self.plan());
        self.take_code(timer.index);
        self.set_timer(begun);
    }

    // A cycle with no conversion begun; with an idle timer, none.
    pub(crate) fn open_cycle(&mut self, timer: Timer)
        ensures board { board_of self.new ≡ with_cycle (board_of self.old) (record idle_cycle { timer = timer }) }
        ensures spare { self.new.spare ≡ self.old.spare }
        ensures plain { Plain self.old → Plain self.new }
    {
        self.set_timer(timer);
        self.waiting = 0;
        self.slot = 0;
        self.odd = 0;
    }

    // A cycle starts.
    pub(crate) fn start(&mut self)
        ensures board { board_of self.new ≡ started (board_of self.old) }
        ensures spare { self.new.spare ≡ self.old.spare }
        ensures plain { Plain self.old → Plain self.new }
    {
        self.unread = [0; 32];
        self.open_cycle(Timer::started(self.plan()));
        if self.is_burst() {
            self.begin();
        }
    }

    // A trigger that is taken: its store first, then its code.
    fn take_trigger(&mut self)
        ensures board { board_of self.new ≡ trigger_taken (board_of self.old) }
        ensures spare { self.new.spare ≡ self.old.spare }
        ensures plain { Plain self.old → Plain self.new }
    {
        if self.waiting != 0 {
            self.store(self.slot, self.ends != 0);
        }
        self.begin();
    }

    // A trigger that arms by itself.
    fn arm(&mut self)
        ensures board { board_of self.new ≡ armed_by_trigger (board_of self.old) }
        ensures spare { self.new.spare ≡ self.old.spare }
        ensures plain { Plain self.old → Plain self.new }
    {
        self.store(self.start, false);
        self.open_cycle(Timer::started(self.plan()));
        self.begin();
    }

    // A trigger that the field takes.
    #[inline(never)]
    fn triggered(&mut self)
        requires { eqb (trigger_field self.old.control) 1 ≡ true }
        ensures board { board_of self.new ≡ triggered (board_of self.old) }
        ensures spare { self.new.spare ≡ self.old.spare }
        ensures plain { Plain self.old → Plain self.new }
    {
        if self.running != 0 {
            if self.is_trigger_only() && self.lag == 0 {
                self.take_trigger();
            }
        } else if self.is_trigger_only() {
            if self.has_channels() {
                self.arm();
            }
        } else if self.is_timed() && self.has_channels() && self.has_interval() {
            self.start();
        }
    }

    /// An external trigger: always accepted.
    #[tactic(auto, unfolding(pmc330_model::specs::Board::triggered, pmc330_model::specs::Questions::call_questions, pmc330_model::specs::Board::after_call, pmc330_model::specs::Board::value_of_call, pmc330_model::specs::Board::board_call, analog::specs::Answers::asked, analog::specs::Answers::answered, analog::specs::Answers::first_no))]
    pub fn trigger(&mut self) -> Answer
        ensures { Does trigger self.old result self.new }
    {
        if self.control / 2 % 4 == 1 {
            self.triggered();
        }
        Ok(0) // a trigger is asked nothing
    }
}
