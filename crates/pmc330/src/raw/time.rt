//! Time passes.
#![tactic(auto)]

ghost use Rattle.std.specs.Prelude.{◌≡◌, ◌≤◌, ◌<◌, ◌||◌, true, not};
ghost use Rattle.schedule.specs.Timer.{elapsed_by};
ghost use Rattle.pmc330_model.specs.Schedule.{is_timed};
ghost use Rattle.pmc330_model.specs.Board.{with_timer, advanced, stores_in};
ghost use Rattle.pmc330_model.specs.Calls.{advance};
ghost use Rattle.pmc330.specs.Raw.{Plain, board_of, registers_of, timer_of, is_set, Does};
ghost use Rattle.pmc330.specs.RawTime.{is_quiet_for, movable_of};

use super::RawBoard;
use analog::{Answer, Refusal};
use pmc330_model::Cycle;

// The most ticks that one advance takes.
pub(crate) const MOST_TICKS: u32 = 16_777_216;

// What time may change of a board.
#[derive(Clone, Copy, Debug, PartialEq, Eq)]
pub struct Movable {
    pub codes: [u16; 32],
    pub unread: [u8; 32],
    pub pending: bool,
    pub taken: u16,
    pub cycle: Cycle,
}

impl RawBoard {
    fn movable(&self) -> Movable
        ensures { result ≡ movable_of (board_of self.now) }
    {
        Movable {
            codes: self.codes,
            unread: self.unread,
            pending: self.pending != 0,
            taken: self.taken,
            cycle: Cycle {
                timer: self.timer(),
                waiting: self.waiting != 0,
                slot: self.slot,
                odd: self.odd != 0,
            },
        }
    }

    // Whether no event comes in n ticks.
    fn is_quiet_for(&self, n: u32) -> bool
        ensures { result ≡ is_quiet_for n (timer_of self.now) }
    {
        (self.lead == 0 || n < self.lead) && (self.lag == 0 || n < self.lag)
    }

    // n ticks pass in which no event comes; in external trigger only none comes in time.
    #[tactic(auto, using(crate::proofs::RawTimeLaws::waited_board, crate::proofs::RawTimeLaws::waited_stores))]
    fn wait(&mut self, n: u32)
        requires running { is_set self.old.running ≡ true }
        requires quiet { (not (is_timed (registers_of self.old)) || is_quiet_for n (timer_of self.old)) ≡ true }
        ensures board { board_of self.new ≡ advanced n (board_of self.old) }
        ensures spare { self.new.spare ≡ self.old.spare }
        ensures plain { Plain self.old → Plain self.new }
        ensures none { stores_in n (board_of self.old) ≡ 0 }
    {
        self.lead = self.lead.saturating_sub(n);
        self.lag = self.lag.saturating_sub(n);
    }

    // A pass of a continuous mode, or two if differential: after them the place of the next conversion is back, and so is the parity
    // of the pass. Only speed depends on this number.
    fn span(&self) -> Option<u32> {
        let plan = self.plan();
        if plan.single {
            return None;
        }
        let pass = u32::from(plan.last)
            .saturating_mul(plan.step)
            .saturating_add(plan.turn);
        if self.is_differential() {
            return Some(pass.saturating_mul(2));
        }
        Some(pass)
    }

    // The part of a run that is run next: a span, or up to the next event where that is farther, as only bytes that no call left
    // have it. So no loop goes over ticks.
    fn part_of(&self, span: u32, left: u32) -> u32
        ensures most { result ≤ left }
        ensures some { 0 < left → 0 < result }
    {
        let next = if self.lead == 0 {
            self.lag
        } else if self.lag == 0 {
            self.lead
        } else {
            self.lead.min(self.lag)
        };
        span.max(next).max(1).min(left)
    }

    // Ticks pass, span after span. Once a span leaves the board as it was, all later ones do, and make as many stores: these are
    // counted without being run. Out of line, since most advances are shorter than that.
    #[inline(never)]
    fn run_spans(&mut self, span: u32, ticks: u32) -> u32
        requires { is_timed (registers_of self.old) ≡ true }
        ensures board { board_of self.new ≡ advanced ticks (board_of self.old) }
        ensures spare { self.new.spare ≡ self.old.spare }
        ensures plain { Plain self.old → Plain self.new }
        ensures stores { result ≡ stores_in ticks (board_of self.old) }
    {
        let mut left = ticks;
        let mut made: u32 = 0;
        while 0 < left {
            let part = self.part_of(span, left);
            let before = self.movable();
            let stores = self.run_for(part);
            let rest = left - part;
            let same = self.movable() == before;
            let more = if same { rest / part } else { 0 };
            made += stores + more * stores;
            left = rest - more * part;
        }
        made
    }

    /// Time passes, up to 16,777,216 ticks of 125 ns: the stores made in them. Refused with 13. However many the ticks, a board that
    /// calls made takes some hundreds of steps at the most.
    #[tactic(auto, unfolding(pmc330_model::specs::Questions::call_questions, pmc330_model::specs::Board::after_call, pmc330_model::specs::Board::value_of_call, pmc330_model::specs::Board::board_call, analog::specs::Answers::asked, analog::specs::Answers::answered, analog::specs::Answers::first_no), using(pmc330_model::proofs::Jumps::idle_board, pmc330_model::proofs::Jumps::idle_stores))]
    pub fn advance(&mut self, ticks: u32) -> Answer
        ensures { Does (advance ticks) self.old result self.new }
    {
        if MOST_TICKS < ticks {
            return Err(Refusal::BadTicks);
        }
        if self.running == 0 {
            return Ok(0);
        }
        if !self.is_timed() || self.is_quiet_for(ticks) {
            self.wait(ticks);
            return Ok(0);
        }
        match self.span() {
            Some(span) if span <= ticks / 2 => Ok(self.run_spans(span, ticks)),
            _ => Ok(self.run_for(ticks)),
        }
    }
}
