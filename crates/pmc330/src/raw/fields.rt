//! What the registers of a held board say of a scan.
ghost use Rattle.std.specs.Prelude.{◌≡◌, ◌<◌, ◌≤◌};
ghost use Rattle.pmc330_model.specs.Map.{scan_field, is_timer_enabled, acquisition_field};
ghost use Rattle.pmc330_model.specs.Schedule.{interval, is_differential, is_uniform, is_burst, is_single, is_timed, is_trigger_only, is_interrupting, burst_delay, code_at, formatted_by};
ghost use Rattle.pmc330_model.specs.Questions.{has_channels, has_interval};
ghost use Rattle.pmc330_model.specs.Plan.{step_of, plan_of};
ghost use Rattle.pmc330.specs.Raw.{registers_of};

use super::RawBoard;
use pmc330_model::Registers;
use schedule::Plan;

impl RawBoard {
    // The registers as written, but for the gains.
    pub(crate) fn registers(&self) -> Registers
        ensures { result ≡ registers_of self.now }
    {
        Registers {
            enable: self.enable != 0,
            control: self.control,
            prescaler: self.prescaler,
            timer: self.timer,
            start: self.start,
            end: self.end,
        }
    }

    pub(crate) fn scan(&self) -> u16
        ensures { result ≡ scan_field self.now.control }
    {
        self.control / 0x100 % 8
    }

    fn has_timer(&self) -> bool
        ensures { result ≡ is_timer_enabled self.now.control }
    {
        self.control / 0x800 % 2 == 1
    }

    pub(crate) fn is_uniform(&self) -> bool
        ensures { result ≡ is_uniform (registers_of self.now) }
    {
        matches!(self.scan(), 1 | 2)
    }

    pub(crate) fn is_burst(&self) -> bool
        ensures { result ≡ is_burst (registers_of self.now) }
    {
        matches!(self.scan(), 3 | 4)
    }

    pub(crate) fn is_single(&self) -> bool
        ensures { result ≡ is_single (registers_of self.now) }
    {
        matches!(self.scan(), 2 | 4)
    }

    // Whether the mode is one in time.
    pub(crate) fn is_timed(&self) -> bool
        ensures { result ≡ is_timed (registers_of self.now) }
    {
        matches!(self.scan(), 1..=4)
    }

    pub(crate) fn is_trigger_only(&self) -> bool
        ensures { result ≡ is_trigger_only (registers_of self.now) }
    {
        self.scan() == 5
    }

    fn acquisition(&self) -> u16
        ensures { result ≡ acquisition_field self.now.control }
    {
        self.control / 8 % 8
    }

    pub(crate) fn is_differential(&self) -> bool
        ensures { result ≡ is_differential (registers_of self.now) }
    {
        self.acquisition() == 0
    }

    pub(crate) fn interval(&self) -> u32
        ensures value { result ≡ interval (registers_of self.now) }
        ensures bound { result ≤ 16_711_425 }
    {
        u32::from(self.prescaler) * u32::from(self.timer)
    }

    // Question 9.
    pub(crate) fn has_channels(&self) -> bool
        ensures { result ≡ has_channels (registers_of self.now) }
    {
        self.start <= self.end && (!self.is_differential() || self.end <= 15)
    }

    // Question 10.
    pub(crate) fn has_interval(&self) -> bool
        ensures { result ≡ has_interval (registers_of self.now) }
    {
        let timed = self.has_timer();
        if self.is_uniform() {
            return timed && 64 <= self.interval();
        }
        self.scan() != 3 || !timed || 64 <= self.interval()
    }

    // Ticks from a beginning to the next one within a pass; in external trigger only none comes in time.
    fn step(&self) -> u32
        ensures value { result ≡ step_of (registers_of self.now) }
        ensures bound { result ≤ 16_711_425 }
    {
        if self.is_uniform() {
            self.interval()
        } else if self.is_burst() {
            120
        } else {
            0
        }
    }

    // The interval between passes in burst continuous with the timer enabled.
    fn burst_delay(&self) -> u32
        ensures value { result ≡ burst_delay (registers_of self.now) }
        ensures bound { result ≤ 16_711_425 }
    {
        if self.scan() == 3 && self.has_timer() {
            self.interval()
        } else {
            0
        }
    }

    // The times of a scan.
    #[inline(always)]
    pub(crate) fn plan(&self) -> Plan
        ensures { result ≡ plan_of (registers_of self.now) }
    {
        let step = self.step();
        Plan {
            last: self.end.saturating_sub(self.start),
            first: if self.is_uniform() { step } else { 0 },
            step,
            turn: step + self.burst_delay(),
            single: self.is_single(),
            delay: 64,
        }
    }

    // The straight code that a conversion on a channel takes.
    pub(crate) fn code_at(&self, channel: usize) -> u16
        requires { channel < 32 }
        ensures { result ≡ code_at self.now.range (registers_of self.now) self.now.gains self.now.inputs channel }
    {
        let acquisition = self.acquisition();
        let voltage = if acquisition < 2 {
            self.inputs[channel]
        } else {
            analog::calibration(u32::from(acquisition)) as i32
        };
        analog::code(
            u32::from(self.range),
            u32::from(self.gains[channel]),
            voltage,
        )
    }

    // A code in the format in force.
    pub(crate) fn in_format(&self, code: u16) -> u16
        ensures { result ≡ formatted_by (registers_of self.now) code }
    {
        analog::formatted(self.control % 2 == 1, code)
    }

    // Whether a store raises an interrupt.
    pub(crate) fn interrupts(&self, ends: bool) -> bool
        ensures { result ≡ is_interrupting (registers_of self.now) ends }
    {
        match self.control / 0x1000 % 4 {
            1 => true,
            2 => ends,
            _ => false,
        }
    }
}
