//! What the words of the register map hold, and what a read or a write of any width covers of them.
ghost use Rattle.std.specs.Prelude.{cond, ◌≡◌, ◌+◌, ◌-◌, ◌*◌, ◌/◌, ◌%◌, ◌^◌, ◌≤◌, ◌<◌, leb, get_or, length, ℕ};
ghost use Rattle.pmc330_model.specs.Map.{kept_control};
ghost use Rattle.pmc330_model.specs.Words.{joined, to_bit, held_word, read_word, read_bytes, written_byte, written_word, gains_from};
ghost use Rattle.pmc330.specs.Widths.{bits_of, view_in};

use crate::access::Access;
use crate::widths::Width;
use pmc330_model::{Register, Registers};

// A word of digits to a base, the first one lowest.
fn joined<F: Fn(u8) -> u8>(base: u32, bytes: &[u8], digit: F) -> u32
    requires callable { F.IsAlwaysCallable digit }
    requires fits { (2 ≤ base) × (base ^ length bytes.now ≤ 65_536) }
    ensures { (f : ℕ → ℕ) → ((n m : ℕ) → n < 256 → F.post digit n m → m ≡ f n) → result ≡ joined base (λ i. f (get_or bytes.now i 0)) (length bytes.now) }
{
    let mut word: u32 = 0;
    let mut weight: u32 = 1;
    for byte in bytes {
        word += u32::from(digit(*byte)) * weight;
        weight *= base;
    }
    word
}

// A word of New or Missed bits: the slots of a half whose count is at least `least`.
fn flag_word(unread: &[u8; 32], half: u8, least: u8) -> u32
    requires { 0 < least }
    ensures { result ≡ joined 2 (λ i. to_bit (leb least (get_or unread.now (16 * half + i) 0))) 16 }
{
    let first = 16 * usize::from(half);
    match unread.get(first..first + 16) {
        Some(counts) => joined(2, counts, |stores| u8::from(least <= stores)),
        None => 0,
    }
}

// A word of a group of eight gains. Tried as one function with `flag_word`: it takes base, count and digit besides, needs a
// requires, and is no shorter.
fn gain_word(gains: &[u8; 32], group: u8) -> u32
    ensures { result ≡ joined 4 (λ i. get_or gains.now (8 * group + i) 0) 8 }
{
    let first = 8 * usize::from(group);
    match gains.get(first..first + 8) {
        Some(eight) => joined(4, eight, |gain| gain),
        None => 0,
    }
}

// The bits of a word that a write sets.
#[tactic(auto, unfolding(pmc330_model::specs::Words::held_word))]
fn held_word(r: Registers, gains: &[u8; 32], register: Register) -> u32
    ensures { result ≡ held_word r gains.now register }
{
    match register {
        Register::Interrupt => u32::from(r.enable),
        Register::Control => u32::from(r.control),
        Register::Prescaler => u32::from(r.prescaler) * 0x100,
        Register::Timer => u32::from(r.timer),
        Register::Channels => u32::from(r.start) + u32::from(r.end) * 0x100,
        Register::Gain(group) => gain_word(gains, group),
        _ => 0,
    }
}

// The code in a mailbox.
fn mailbox_word(codes: &[u16; 32], slot: u8) -> u32
    ensures { result ≡ get_or codes.now slot 0 }
{
    codes
        .get(usize::from(slot))
        .map_or(0, |&code| u32::from(code))
}

// The word that is read.
#[tactic(auto, unfolding(pmc330_model::specs::Words::read_word, pmc330_model::specs::Words::held_word))]
pub(crate) fn read_word(
    r: Registers,
    pending: bool,
    gains: &[u8; 32],
    codes: &[u16; 32],
    unread: &[u8; 32],
    register: Register,
) -> u32
    ensures { result ≡ read_word (view_in r pending gains.now codes.now unread.now) register }
{
    match register {
        Register::Interrupt => u32::from(r.enable) + u32::from(pending) * 2,
        Register::NewData(half) => flag_word(unread, half, 1),
        Register::MissedData(half) => flag_word(unread, half, 2),
        Register::Mailbox(slot) => mailbox_word(codes, slot),
        _ => held_word(r, gains, register),
    }
}

// What a look shows of a slot: its code, 65,536 more if New and 131,072 more if Missed.
pub(crate) fn look_value(code: u16, stores: u8) -> u32
    ensures { result ≡ code + cond (leb 1 stores) 65_536 0 + cond (leb 2 stores) 131_072 0 }
{
    u32::from(code) + u32::from(1 <= stores) * 65_536 + u32::from(2 <= stores) * 131_072
}

// A group of eight gains takes two bits each.
pub(crate) fn gains_from(gains: &mut [u8; 32], group: u8, word: u16)
    ensures { gains.new ≡ gains_from (8 * group) word 8 gains.old }
{
    let first = 8 * usize::from(group);
    // a test: of the elements after a `get_mut` nothing is known
    if 32 <= first {
        return;
    }
    let mut rest = word;
    for gain in gains[first..first + 8].iter_mut() {
        *gain = (rest % 4) as u8;
        rest /= 4;
    }
}

// Control keeps the bits that have a use.
pub(crate) fn kept_control(word: u16) -> u16
    ensures { result ≡ kept_control word }
{
    word % 0x40 + word / 0x100 % 0x40 * 0x100
}

// The byte of a word at a place.
#[tactic(auto, using(crate::proofs::WordLaws::byte_power))]
fn byte_at(word: u32, place: u32) -> u8
    requires { place < 4 }
    ensures { result ≡ word / 0x100 ^ place % 0x100 }
{
    word.to_le_bytes()[place as usize]
}

impl Access {
    // The bytes of a word that a read covers.
    #[tactic(auto, using(crate::proofs::WordLaws::byte_power))]
    pub(crate) fn read_bytes(self, word: u32) -> u32
        ensures { result ≡ read_bytes (bits_of self.width) self.offset word }
    {
        let rest = word >> (8 * (self.offset % 4));
        (u64::from(rest) % self.width.numbers()) as u32
    }

    // A byte of a word after a write: the written one where the width covers it, else the old one.
    fn written_byte(self, value: u32, old: u32, place: u32) -> u8
        requires { place < 2 }
        ensures { result ≡ written_byte (bits_of self.width) self.offset value old place }
    {
        let first = self.offset % 4;
        if (first..first + self.width.bytes()).contains(&place) {
            return byte_at(value, place - first);
        }
        byte_at(old, place)
    }

    // The word that a write of a value results in.
    #[tactic(auto, unfolding(pmc330_model::specs::Words::written_word))]
    pub(crate) fn written_word(
        self,
        r: Registers,
        gains: &[u8; 32],
        register: Register,
        value: u32,
    ) -> u16
        ensures { result ≡ written_word (bits_of self.width) self.offset value (held_word r gains.now register) }
    {
        if self.offset % 4 == 0 && self.width != Width::Byte {
            return (value % 0x10000) as u16;
        }
        let old = held_word(r, gains, register);
        let low = self.written_byte(value, old, 0);
        let high = self.written_byte(value, old, 1);
        u16::from_le_bytes([low, high])
    }
}
