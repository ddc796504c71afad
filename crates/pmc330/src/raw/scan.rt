//! Time in a mode in time, from event to event: the board is what its scan changes.
#![tactic(auto)]

ghost use Rattle.std.specs.Prelude.{◌≡◌, true};
ghost use Rattle.pmc330_model.specs.Schedule.{is_timed};
ghost use Rattle.pmc330_model.specs.Board.{advanced, stores_in};
ghost use Rattle.pmc330.specs.Raw.{Plain, board_of, registers_of};

use super::RawBoard;
use schedule::Sink;

impl Sink for RawBoard {
    type Board = RawBoard;

    ghost use Rattle.pmc330.specs.RawTime.{raw_effects};

    ghost seen = { λ raw. raw };

    ghost effects = { raw_effects };

    #[inline(always)]
    fn take(&mut self, index: u8) {
        self.take_code(index);
    }

    // The last store of a single mode leaves nothing of the cycle.
    #[inline(always)]
    fn store(&mut self, ends: bool) {
        RawBoard::store(self, self.slot, ends);
        self.waiting = 0;
        if ends && self.is_single() {
            self.slot = 0;
            self.odd = 0;
        }
    }
}

impl RawBoard {
    // Ticks pass in a mode in time: the stores made in them.
    #[inline(always)]
    pub(crate) fn run_for(&mut self, ticks: u32) -> u32
        requires { is_timed (registers_of self.old) ≡ true }
        ensures board { board_of self.new ≡ advanced ticks (board_of self.old) }
        ensures spare { self.new.spare ≡ self.old.spare }
        ensures plain { Plain self.old → Plain self.new }
        ensures stores { result ≡ stores_in ticks (board_of self.old) }
    {
        let passed = schedule::run(self.plan(), self.timer(), self, ticks);
        self.set_timer(passed.timer);
        passed.stores
    }
}
