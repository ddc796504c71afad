//! What C links: include/pmc330.h declares each function here and in `board`. C hands its numbers over one by one, and any numbers.
#![tactic(auto)]

mod board;
pub mod theorems;

ghost use Rattle.std.specs.Prelude.{◌≡◌, length};
ghost use Rattle.analog.specs.Answers.{packed};
ghost use Rattle.analog.specs.Code.{code_of};
ghost use Rattle.analog.specs.Correction.{corrected_answer};
ghost use Rattle.load.specs.Load.{load_answer, load_output};
ghost use Rattle.trace.specs.Play.{played_result, played_buffer};
ghost use Rattle.trace.specs.Replay.{replayed, replay_result};
ghost use Rattle.window.specs.Window.{window_answer, window_output};

use analog::packed;
use trace::Replayed;

/// The two-point correction of a raw code: 256 × the corrected code + number; the number is 0, 15, 16 or 17.
#[unsafe(no_mangle)]
pub extern "C" fn pmc330_corrected(
    range: u32,
    gain: u32,
    high: u32,
    low: u32,
    high_sum: u32,
    low_sum: u32,
    raw: u32,
) -> u64
    ensures { result ≡ packed (corrected_answer range gain high low high_sum low_sum raw) }
{
    packed(analog::corrected(range, gain, high, low, high_sum, low_sum, raw))
}

/// The straight code, 0 to 65,535, of a voltage in uV. It refuses nothing: range and gain field count by their remainders by 4.
#[unsafe(no_mangle)]
pub extern "C" fn pmc330_code(range: u32, gain: u32, microvolts: i32) -> u32
    ensures { result ≡ code_of range gain microvolts }
{
    u32::from(analog::code(range, gain, microvolts))
}

/// The sums of a running average's window of 8, 16 or 32: 256 × how many codes the last sum holds + number, 0, 20 or 21.
#[unsafe(no_mangle)]
pub extern "C" fn pmc330_window(length: u32, codes: &[u16], sums: &mut [u32]) -> u64
    ensures result { result ≡ packed (window_answer length codes.now sums.old) }
    ensures output { sums.new ≡ window_output length codes.now sums.old }
{
    packed(window::window_sums(length, codes, sums))
}

/// A trace played on a new board, its answers put into the lent buffer: 256 × calls answered + number, 0, 18, 19, 20 or 26.
#[unsafe(no_mangle)]
pub extern "C" fn pmc330_play(trace: &[u8], answers: &mut [u8]) -> u64
    ensures result { result ≡ played_result trace.now (length answers.old) }
    ensures buffer { answers.new ≡ played_buffer trace.now answers.old }
{
    packed(trace::play(trace, answers))
}

/// A recording replayed on a new board: number, 0, 18, 19 or 26, + 2^8 × index + 2^32 × count.
#[unsafe(no_mangle)]
pub extern "C" fn pmc330_replay(trace: &[u8]) -> u64
    ensures { result ≡ replay_result (replayed trace.now) }
{
    match trace::replay(trace) {
        Ok(Replayed::Agree(count)) => 4_294_967_296 * u64::from(count),
        Ok(Replayed::Differs { index, count }) => {
            256 * u64::from(index) + 4_294_967_296 * u64::from(count)
        }
        Err(refusal) => u64::from(refusal.number()),
    }
}

/// A load put into the lent buffer: 256 × the length of its trace, 0 where refused, + number, 0, 14, 27 or 28.
#[unsafe(no_mangle)]
pub extern "C" fn pmc330_load(seed: u32, range: u32, calls: u32, trace: &mut [u8]) -> u64
    ensures result { result ≡ packed (load_answer seed range calls (length trace.old)) }
    ensures buffer { trace.new ≡ load_output seed range calls trace.old }
{
    packed(load::load(seed, range, calls, trace))
}
