//! The running average's window: after each code of a run, the sum of the last ones.
#![tactic(auto)]

pub mod theorems;

ghost use Rattle.std.specs.Prelude.{◌++◌, ◌≡◌, ◌≤◌, length, drop};
ghost use Rattle.analog.specs.Sums.{sum_of};
ghost use Rattle.window.specs.Machine.{Filled};
ghost use Rattle.window.specs.Window.{window_after, sums_after, held_after, is_length, window_answer, window_output};

use analog::{Answer, Refusal};

// Question 21.
fn is_length(n: u32) -> bool
    ensures { result ≡ is_length n }
{
    matches!(n, 8 | 16 | 32)
}

// How many codes the last sum of a run holds.
fn held(n: u32, run: usize) -> u32
    ensures { result ≡ held_after n run }
{
    run.min(n as usize) as u32
}

// The window fills: after each of the first `full` codes the sum of all so far. Gives the last sum.
// `full` is N, or the whole run where that is shorter. The sums go by place, here and below: tried, and after `zip` with `iter_mut`
// nothing is known of them.
fn fill(full: usize, codes: &[u16], sums: &mut [u32]) -> u32
    requires most { full ≤ 32 }
    requires within { full ≤ length codes.now }
    requires room { length codes.now ≤ length sums.old }
    ensures sum { result ≡ sum_of (window_after full codes.now full) }
    ensures output { sums.new ≡ sums_after full codes.now full ++ drop full sums.old }
{
    let mut sum = 0;
    for (at, &code) in codes[..full].iter().enumerate() {
        sum += u32::from(code);
        sums[at] = sum;
    }
    sum
}

// The full window slides over what is left of the run: a code joins and the oldest leaves, whatever the length is.
fn slide(full: usize, filled: u32, codes: &[u16], sums: &mut [u32])
    requires { Filled full codes.now filled sums.old }
    ensures { sums.new ≡ sums_after full codes.now (length codes.now) ++ drop (length codes.now) sums.old }
{
    let mut sum = filled;
    for (oldest, &code) in codes[full..].iter().enumerate() {
        sum = sum + u32::from(code) - u32::from(codes[oldest]);
        sums[full + oldest] = sum;
    }
}

/// After each straight code the sum of the last `length` ones, or of all so far where these are fewer, put at the code's place.
/// `length` is 8, 16 or 32, and a sum at most 2,097,120. Gives how many codes the last sum holds, 0 for an empty run; places
/// past the run stay. Refused with 21 or 20, `sums` stays.
#[tactic(auto, unfolding(crate::specs::Window::window_answer, crate::specs::Window::window_output, analog::specs::Answers::answered, analog::specs::Answers::asked, analog::specs::Answers::all_met))]
pub fn window_sums(length: u32, codes: &[u16], sums: &mut [u32]) -> Answer
    ensures answer { result ≡ window_answer length codes.now sums.old }
    ensures output { sums.new ≡ window_output length codes.now sums.old }
{
    if !is_length(length) {
        return Err(Refusal::BadWindow);
    }
    if sums.len() < codes.len() {
        return Err(Refusal::ShortBuffer);
    }
    let count = held(length, codes.len());
    let full = count as usize;
    let filled = fill(full, codes, sums);
    slide(full, filled, codes, sums);
    Ok(count)
}
