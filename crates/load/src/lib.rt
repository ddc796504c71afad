//! A load: a trace of calls made from a seed, the same on every machine.
#![tactic(auto)]

pub mod theorems;

ghost use Rattle.std.specs.Prelude.{◌≡◌, ◌++◌, ℕ, ◌+◌, ◌/◌, ◌≤◌, length, drop};
ghost use Rattle.std.specs.Option.{SomeIff};
ghost use Rattle.trace.specs.Fields.{field_bytes};
ghost use Rattle.load.specs.Bits.{stepped};
ghost use Rattle.load.specs.Load.{call_from, heading_for, load_answer, load_output};
ghost use Rattle.load.specs.Machine.{call_of_kind, kind_bytes, calls_bytes};

use analog::{Answer, Refusal};
use trace::LONGEST;

// How many bytes the heading has.
const HEADING: usize = 8;

// One step of x, in 32 bits: `<<` drops what goes past bit 31.
#[tactic(auto, using(crate::proofs::BitLaws::step_is))]
fn step(mut x: u32) -> u32
    ensures { result ≡ stepped x }
{
    x ^= x << 13;
    x ^= x >> 17;
    x ^= x << 5;
    x
}

// The kinds of call that a load has, by their field's tag; reads and writes are 16 bits wide. A call's numbers are made from q:
// tried with variants that carry them, and making a load took 1.25 times as long. The player's tag has three more: each match
// would name them.
#[derive(Clone, Copy)]
enum Kind {
    Read = 1,
    Write = 2,
    Input = 3,
    Advance = 4,
    Trigger = 5,
    Reset = 6,
}

// By x modulo 8. A table: with a match it takes 1.3 of the time to find that a load does not fit.
static KINDS: [Kind; 8] = [
    Kind::Read,
    Kind::Read,
    Kind::Read,
    Kind::Write,
    Kind::Input,
    Kind::Advance,
    Kind::Trigger,
    Kind::Reset,
];

impl Kind {
    // The kind that x picks. The rule states it by this number; from here on it is a kind.
    #[tactic(auto, unfolding(crate::specs::Load::call_picked))]
    fn picked_by(x: u32) -> Self
        ensures { call_of_kind result (x / 8) ≡ call_from x }
    {
        KINDS[(x % 8) as usize]
    }

    // How many bytes a call's field has.
    #[tactic(auto, unfolding(crate::specs::Load::low_bytes))]
    fn size(self) -> usize
        ensures { (q : ℕ) → result ≡ length (kind_bytes self q) }
    {
        match self {
            Self::Read => 6,
            Self::Write => 10,
            Self::Input => 8,
            Self::Advance => 7,
            Self::Trigger | Self::Reset => 3,
        }
    }

    // A call's field put at its place: the tag, the length of the body in two bytes, the body.
    #[tactic(auto, unfolding(crate::specs::Load::low_bytes))]
    fn put(self, q: u32, place: &mut [u8])
        requires { length place.old ≡ length (kind_bytes self q) }
        ensures { place.new ≡ kind_bytes self q }
    {
        let tag = self as u8;
        let offset = (q % 64 * 4) as u8;
        match self {
            Self::Read => place.copy_from_slice(&[tag, 3, 0, 16, offset, 0]),
            Self::Write => {
                let [low, high] = ((q % 65_536) as u16).to_le_bytes();
                place.copy_from_slice(&[tag, 7, 0, 16, offset, 0, low, high, 0, 0]);
            }
            Self::Input => {
                let microvolts = (q % 20_000_001) as i32 - 10_000_000;
                let [a, b, c, d] = microvolts.to_le_bytes();
                place.copy_from_slice(&[tag, 5, 0, (q % 32) as u8, a, b, c, d]);
            }
            Self::Advance => {
                let [low, high] = ((q % 4_096) as u16).to_le_bytes();
                place.copy_from_slice(&[tag, 4, 0, low, high, 0, 0]);
            }
            Self::Trigger | Self::Reset => place.copy_from_slice(&[tag, 0, 0]),
        }
    }
}

// The calls of a load that are left after an x: each one's kind, and the q of its numbers.
#[derive(Clone, Copy, Drop)]
struct Calls {
    x: u32,
    left: u32,
}

impl Iterator for Calls {
    type Item = (Kind, u32);

    ghost use Rattle.std.specs.Iterator.{YieldsFirstBy, item_count};
    ghost use Rattle.load.specs.Load.{load_calls};
    ghost use Rattle.load.specs.Machine.{call_of_kind};

    ghost next_gives = { YieldsFirstBy (λ call. call_of_kind call.0 call.1) (λ s. load_calls s.x s.left) };

    ghost remaining = { item_count (λ s. load_calls s.x s.left) };

    #[tactic(auto, unfolding(crate::specs::Load::load_calls))]
    fn next(&mut self) -> Option<(Kind, u32)> {
        self.left = self.left.checked_sub(1)?;
        self.x = step(self.x);
        Some((Kind::picked_by(self.x), self.x / 8))
    }
}

// The length of the load's trace, where it is within a limit. The buffer may not be touched before it is known.
fn length_within(limit: usize, calls: Calls) -> Option<usize>
    ensures { let size = HEADING + length (calls_bytes calls.x calls.left) in SomeIff result (size ≤ limit) size }
{
    let mut room = limit.checked_sub(HEADING)?;
    for (kind, _) in calls {
        room = room.checked_sub(kind.size())?;
    }
    Some(limit - room)
}

// The first field: the fixed bytes, and the range.
fn heading(range: u32) -> [u8; HEADING]
    requires { range ≤ 3 }
    ensures { result ≡ field_bytes (heading_for range) }
{
    [0, 5, 0, b'A', b'3', b'3', b'0', range as u8]
}

// The fields of all calls, at the front of what is left of the buffer. Fields differ in size, so no iterator of parts gives their
// places; tried with `split_at_mut`, and nothing can be said of what earlier turns put.
fn put_calls(rest: &mut [u8], calls: Calls)
    requires { length (calls_bytes calls.x calls.left) ≤ length rest.old }
    ensures { rest.new ≡ calls_bytes calls.x calls.left ++ drop (length (calls_bytes calls.x calls.left)) rest.old }
{
    let mut at = 0;
    for (kind, q) in calls {
        let end = at + kind.size();
        kind.put(q, &mut rest[at..end]);
        at = end;
    }
}

/// A load of so many calls at the front of `out`: a trace of range 0 to 3, made from a seed above 0 (data sheet, "Loads"). Gives
/// the length of the trace in bytes, at most 8 + 10 × calls and 16,777,216; bytes past it stay. Refused with 27, 14 or 28, `out`
/// stays.
#[tactic(auto, unfolding(crate::specs::Load::load_answer, crate::specs::Load::load_output, crate::specs::Load::load_trace, trace::specs::Fields::bytes_of_fields, analog::specs::Answers::answered, analog::specs::Answers::asked, analog::specs::Answers::all_met))]
pub fn load(seed: u32, range: u32, calls: u32, out: &mut [u8]) -> Answer
    ensures answer { result ≡ load_answer seed range calls (length out.old) }
    ensures output { out.new ≡ load_output seed range calls out.old }
{
    if seed == 0 {
        return Err(Refusal::BadSeed);
    }
    if 3 < range {
        return Err(Refusal::BadRange);
    }
    let limit = out.len().min(LONGEST);
    let all = Calls {
        x: seed,
        left: calls,
    };
    let length = length_within(limit, all).ok_or(Refusal::NoRoom)?;
    out[..HEADING].copy_from_slice(&heading(range));
    put_calls(&mut out[HEADING..], all);
    Ok(length as u32)
}
