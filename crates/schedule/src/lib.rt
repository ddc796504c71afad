//! The times of a scan: a timer that counts down to the next beginning and the next store of a conversion, and an engine that takes
//! any board from event to event. It knows no channel, slot, code or register: a board says what a beginning and a store change
//! (`Sink`), and its registers what the times are (`Plan`). All times are in ticks.
#![tactic(auto)]

pub mod theorems;

ghost use Rattle.std.specs.Prelude.{◌≡◌};
ghost use Rattle.schedule.specs.Timer.{started_timer, elapsed_by, begun_timer, stored_timer, step_to};
ghost use Rattle.schedule.specs.Scan.{Effects, scan, store_if, begin_if, jumped, converted, converts, advanced, stores_in};

/// The times of a scan, as a board's registers set them.
#[derive(Clone, Copy, Debug, PartialEq, Eq)]
pub struct Plan {
    /// The place of the last conversion of a pass, 0 to 255: a pass has `last` + 1 conversions.
    pub last: u8,
    /// Ticks from the start to the first beginning; 0: the first conversion begins with the start.
    pub first: u32,
    /// Ticks from a beginning to the next one, within a pass.
    pub step: u32,
    /// Ticks from the last beginning of a pass to the first one of the next pass.
    pub turn: u32,
    /// Whether the scan ends with its first pass, and goes on pass after pass otherwise.
    pub single: bool,
    /// Ticks from a beginning to its store. A scan keeps to its schedule if this is at least 1, and at most `step` and `turn`.
    pub delay: u32,
}

/// Where a scan stands. `Timer::default()` is idle.
#[derive(Clone, Copy, Debug, Default, PartialEq, Eq)]
pub struct Timer {
    /// Whether the scan runs. While it does not, no time counts.
    pub running: bool,
    /// Ticks to the next beginning; 0: none is to come.
    pub lead: u32,
    /// Ticks to the store of the conversion in progress; 0: none is in progress.
    pub lag: u32,
    /// Whether the conversion in progress ends its pass.
    pub ends: bool,
    /// The place in its pass of the conversion that begins next, 0 to `last`.
    pub index: u8,
}

/// What conversions change: each begins at a place of its pass, and is stored later.
pub trait Sink {
    /// The board as clauses see it.
    type Board;

    ghost seen: { Self → Self.Board };

    ghost effects: { Effects Self.Board };

    /// The conversion at this place of its pass, 0 to 255, begins: its code is taken.
    fn take(&mut self, index: u8)
        ensures { seen self.new ≡ effects.taken index (seen self.old) };

    /// The conversion in progress is stored; `ends`: it ends its pass.
    fn store(&mut self, ends: bool)
        ensures { seen self.new ≡ effects.stored ends (seen self.old) };
}

/// Where a scan stands after some ticks.
#[derive(Clone, Copy, Debug, PartialEq, Eq)]
pub struct Passed {
    /// The timer after them.
    pub timer: Timer,
    /// The stores made in them, at most one a tick.
    pub stores: u32,
}

impl Timer {
    /// A scan starts. With `first` 0 its first conversion begins at once: `begun` follows.
    #[inline(always)]
    pub fn started(plan: Plan) -> Timer
        ensures { result ≡ started_timer plan }
    {
        Timer {
            running: true,
            lead: plan.first,
            ..Timer::default()
        }
    }

    /// n ticks pass; both countdowns stop at 0.
    #[inline(always)]
    pub fn elapsed(self, n: u32) -> Timer
        ensures { result ≡ elapsed_by n self }
    {
        Timer {
            lead: self.lead.saturating_sub(n),
            lag: self.lag.saturating_sub(n),
            ..self
        }
    }

    /// The next conversion begins. In a single plan none is to come after the last one of the pass.
    #[inline(always)]
    pub fn begun(self, plan: Plan) -> Timer
        ensures { result ≡ begun_timer plan self }
    {
        let ends = plan.last <= self.index;
        Timer {
            lead: if plan.single && ends {
                0
            } else if ends {
                plan.turn
            } else {
                plan.step
            },
            lag: plan.delay,
            ends,
            index: if ends { 0 } else { self.index + 1 },
            ..self
        }
    }

    /// The conversion in progress is stored. In a single plan the last one of the pass ends the scan.
    #[inline(always)]
    pub fn stored(self, plan: Plan) -> Timer
        ensures { result ≡ stored_timer plan self }
    {
        if plan.single && self.ends {
            Timer::default()
        } else {
            self
        }
    }
}

// The ticks to the end of a countdown, if one runs, and at most `left`.
#[inline(always)]
fn nearer(count: u32, left: u32) -> u32
    ensures { result ≡ step_to count left }
{
    if count == 0 { left } else { count.min(left) }
}

// The conversion in progress is stored if it is due.
#[inline(always)]
fn store_if<S: Sink>(plan: Plan, due: bool, timer: Timer, sink: &mut S) -> Timer
    ensures { scan result (S.seen sink.new) ≡ store_if plan S.effects due (scan timer (S.seen sink.old)) }
{
    if !due {
        return timer;
    }
    sink.store(timer.ends);
    timer.stored(plan)
}

// The next conversion begins if it is due and the scan still runs.
#[inline(always)]
fn begin_if<S: Sink>(plan: Plan, due: bool, timer: Timer, sink: &mut S) -> Timer
    ensures { scan result (S.seen sink.new) ≡ begin_if plan S.effects due (scan timer (S.seen sink.old)) }
{
    if !due || !timer.running {
        return timer;
    }
    sink.take(timer.index);
    timer.begun(plan)
}

// n ticks, of which only the last may hold an event: a store, then a beginning.
#[inline(always)]
fn jump<S: Sink>(plan: Plan, timer: Timer, sink: &mut S, n: u32) -> Timer
    ensures { scan result (S.seen sink.new) ≡ jumped plan S.effects n (scan timer (S.seen sink.old)) }
{
    let stored = store_if(plan, timer.lag == n, timer.elapsed(n), sink);
    begin_if(plan, timer.lead == n, stored, sink)
}

// The conversion in progress is stored, and the next one begins.
#[inline(always)]
fn convert<S: Sink>(plan: Plan, timer: Timer, sink: &mut S) -> Timer
    ensures { scan result (S.seen sink.new) ≡ converted plan S.effects (scan timer (S.seen sink.old)) }
{
    sink.store(timer.ends);
    sink.take(timer.index);
    timer.begun(plan)
}

/// Whether the store of the conversion in progress and the next beginning come next, with nothing between them, in the ticks that
/// are left: `run` takes these two in one step.
#[inline(always)]
pub fn converts(plan: Plan, left: u32, timer: Timer) -> bool
    ensures { result ≡ converts plan left timer }
{
    0 < timer.lag && timer.lag <= timer.lead && timer.lead <= left && !(plan.single && timer.ends)
}

/// Ticks pass on a scan, from event to event: what is due in them happens, each at its tick, and of a store and a beginning at one
/// tick the store comes first. Any plan, timer and number of ticks will do; an idle timer changes nothing.
#[inline(always)]
pub fn run<S: Sink>(plan: Plan, timer: Timer, sink: &mut S, ticks: u32) -> Passed
    ensures scan { scan result.timer (S.seen sink.new) ≡ advanced plan S.effects ticks (scan timer (S.seen sink.old)) }
    ensures stores { result.stores ≡ stores_in plan S.effects ticks (scan timer (S.seen sink.old)) }
{
    let mut now = timer;
    let mut left = ticks;
    let mut made: u32 = 0;
    while 0 < left && now.running {
        if converts(plan, left, now) {
            left -= now.lead;
            made += 1;
            now = convert(plan, now, sink);
        } else {
            let n = nearer(now.lead, nearer(now.lag, left));
            made += u32::from(now.lag == n);
            now = jump(plan, now, sink, n);
            left -= n;
        }
    }
    Passed {
        timer: now,
        stores: made,
    }
}
