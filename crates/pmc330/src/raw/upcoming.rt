//! The next store: found from the countdowns, with no tick counted.
ghost use Rattle.std.specs.Prelude.{◌≡◌};
ghost use Rattle.pmc330_model.specs.Board.{next_store, if_any};
ghost use Rattle.pmc330_model.specs.NextStore.{is_crowded, store_after_beginning, ticks_to_store, ticks_to_next_store};
ghost use Rattle.pmc330.specs.Raw.{board_of, registers_of, timer_of};

use super::RawBoard;
use super::time::MOST_TICKS;

impl RawBoard {
    // Whether conversions begin before the one before is stored. No list of calls leads there, but any bytes may.
    fn is_crowded(&self) -> bool
        ensures { result ≡ is_crowded (registers_of self.now) }
    {
        self.is_uniform() && (1..64).contains(&self.interval())
    }

    // The ticks from the next beginning to the next store, if one comes.
    fn store_after_beginning(&self) -> Option<u32>
        ensures { result ≡ if_any (store_after_beginning (registers_of self.now) self.now.index) }
    {
        if !self.is_crowded() {
            return Some(64);
        }
        if !self.is_single() {
            return None;
        }
        let length = u32::from(self.end.saturating_sub(self.start)) + 1;
        let rest = length.saturating_sub(u32::from(self.index) + 1);
        Some(64 + rest * self.interval())
    }

    // The ticks to the next store of a running cycle in time, if one comes.
    fn ticks_to_store(&self) -> Option<u64>
        ensures { result ≡ if_any (ticks_to_store (registers_of self.now) (timer_of self.now)) }
    {
        if 0 < self.lag && (self.lead == 0 || self.lag <= self.lead) {
            return Some(u64::from(self.lag));
        }
        if self.lead == 0 {
            return None;
        }
        let after = self.store_after_beginning()?;
        Some(u64::from(self.lead) + u64::from(after))
    }

    // The same of any board, if one advance reaches it.
    fn ticks_to_next_store(&self) -> Option<u32>
        ensures { result ≡ if_any (ticks_to_next_store (registers_of self.now) (timer_of self.now)) }
    {
        if self.running == 0 || !self.is_timed() {
            return None;
        }
        let ticks = self.ticks_to_store()?;
        u32::try_from(ticks).ok().filter(|&n| n <= MOST_TICKS)
    }

    /// The ticks of 125 ns to the next store if only time passes, 1 to 16,777,216; none if the longest advance makes none, and so,
    /// after any list of calls, if no store is to come.
    pub fn next_store(&self) -> Option<u32>
        ensures { result ≡ if_any (next_store (board_of self.now)) }
    {
        self.ticks_to_next_store()
    }
}
