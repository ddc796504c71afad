//! The analog arithmetic: the code of a voltage, its format, and the two-point correction.
#![tactic(auto)]

pub mod theorems;

ghost use Rattle.std.specs.Prelude.{◌≡◌, ◌<◌};
ghost use Rattle.analog.specs.Answers.{number_of_refusal, packed};
ghost use Rattle.analog.specs.Code.{gain_of, calibration_of, code_of, in_format};
ghost use Rattle.analog.specs.Correction.{is_calibration, pair_usable, sums_possible, corrected_count, corrected_answer};
ghost use Rattle.analog.specs.Machine.{raised_of, depth_of, factor_of, limited_quotient, nearest_count, CountFits, Correctable};

/// Why a call is refused: the question that is answered with no, and its number (data sheet, "Refusals").
#[derive(Clone, Copy, Debug, PartialEq, Eq)]
pub enum Refusal {
    /// 1, of a read or a write: the width is not 8, 16 or 32 bits.
    BadWidth = 1,
    /// 2, of a read or a write: the offset is above 255, or no multiple of the width in bytes.
    BadOffset = 2,
    /// 3, of a read or a write: the byte at the offset is unmapped.
    Unmapped = 3,
    /// 4, of a write: the value does not fit the width.
    BadValue = 4,
    /// 5: a read of Start Convert, or a write to New Data, Missed Data or a mailbox.
    BadDirection = 5,
    /// 6, of a write: a cycle runs or is armed, and the write is none of those that are taken then.
    Busy = 6,
    /// 7, of a write: Control would hold a code that is not used, or Start or End Channel be above 31.
    BadCode = 7,
    /// 8, of a start: scan is 000.
    NoScan = 8,
    /// 9, of a start: Start Channel is above End Channel, or that above 15 in differential.
    BadChannels = 9,
    /// 10, of a start: a uniform mode with the timer off, or an interval below 64 ticks in a mode that uses it.
    BadInterval = 10,
    /// 11, of an input: the channel is above 31.
    BadChannel = 11,
    /// 12, of an input: the voltage is below -35,000,000 or above 55,000,000 uV.
    BadVoltage = 12,
    /// 13, of an advance: more than 16,777,216 ticks.
    BadTicks = 13,
    /// 14, of a new board or a load: the range is above 3.
    BadRange = 14,
    /// 15, of a correction: range or gain field is above 3, a code is no calibration, or VH is not above VL.
    BadCalibration = 15,
    /// 16, of a correction: a sum is above 2,097,120, or the raw code above 65,535.
    BadCodes = 16,
    /// 17, of a correction: the high sum is not above the low one.
    BadSums = 17,
    /// 18, of a trace: it is longer than 16,777,216 bytes, or does not begin with the heading and a range of 0 to 3.
    BadHeading = 18,
    /// 19, of a trace: a later field is cut off, or not of a tag that may stand there with its length.
    BadField = 19,
    /// 20: the answer buffer has fewer than 5 bytes per call, or a window's output fewer places than there are codes.
    ShortBuffer = 20,
    /// 21, of a window: the length is not 8, 16 or 32.
    BadWindow = 21,
    /// 22, of a look or a clear: the slot is above 31.
    BadSlot = 22,
    /// 26, of a trace: the field before a recorded answer is no call.
    StrayAnswer = 26,
    /// 27, of a load: the seed is 0.
    BadSeed = 27,
    /// 28, of a load: the trace is longer than the buffer, or than 16,777,216 bytes.
    NoRoom = 28,
}

impl Refusal {
    /// The number of the question, 1 to 28.
    pub fn number(self) -> u8
        ensures { result ≡ number_of_refusal self }
    {
        self as u8
    }
}

/// What a call answers: its value, or why it is refused.
pub type Answer = Result<u32, Refusal>;

/// An answer as one number, as C gets it: 256 × value + number; the number is 0 if accepted, the value 0 if refused.
pub fn packed(answer: Answer) -> u64
    ensures { result ≡ packed answer }
{
    match answer {
        Ok(value) => 256 * u64::from(value),
        Err(refusal) => u64::from(refusal.number()),
    }
}

// The gain that a gain field means.
static GAINS: [u64; 4] = [1, 2, 4, 8];

// What a range is to the code of a voltage.
#[derive(Clone, Copy)]
struct Scale {
    // how far the range's low end is below 0 V
    depth: u64,
    // 65536 over the range's width is this number over 78125: a small factor keeps all products within 64 bits
    factor: u64,
}

// Static, as the other tables: a const is laid on the stack for every conversion.
static SCALES: [Scale; 4] = [
    Scale {
        depth: 5_000_000,
        factor: 512,
    },
    Scale {
        depth: 10_000_000,
        factor: 256,
    },
    Scale {
        depth: 0,
        factor: 1024,
    },
    Scale {
        depth: 0,
        factor: 512,
    },
];

static CALIBRATIONS: [u32; 8] = [0, 0, 0, 4_900_000, 2_450_000, 1_225_000, 612_500, 0];

// The gain that a gain field means, of which the remainder counts.
fn gain_of(field: u32) -> u64
    ensures { result ≡ gain_of field }
{
    GAINS[(field % 4) as usize]
}

// The scale of a range, of which the remainder counts.
fn scale_of(range: u32) -> Scale
    ensures depth { result.depth ≡ depth_of range }
    ensures factor { result.factor ≡ factor_of range }
{
    SCALES[(range % 4) as usize]
}

/// The voltage of a calibration, acquisition codes 3 to 7, in uV; codes 0 to 2 give 0, and above 7 the remainder by 8 counts.
/// C hands ranges, gain fields and acquisition codes over as any numbers, and each has an answer.
pub fn calibration(acquisition: u32) -> u32
    ensures { result ≡ calibration_of acquisition }
{
    CALIBRATIONS[(acquisition % 8) as usize]
}

// A voltage above the least 32-bit one: from here on no number is signed.
fn raised(microvolts: i32) -> u64
    ensures { result ≡ raised_of microvolts }
{
    u64::from(microvolts.abs_diff(i32::MIN))
}

// (top - less) / bottom rounded down, limited to 0..65535.
fn limited_quotient(top: u64, less: u64, bottom: u64) -> u32
    requires { 0 < bottom }
    ensures { result ≡ limited_quotient top less bottom }
{
    (top.saturating_sub(less) / bottom).min(65535) as u32
}

/// The straight code, 0 to 65,535, of a voltage in uV: range 0 to 3, gain field 0 to 3. Of another range or gain field the
/// remainder by 4 counts.
pub fn code(range: u32, gain: u32, microvolts: i32) -> u16
    ensures { result ≡ code_of range gain microvolts }
{
    let g = gain_of(gain);
    let scale = scale_of(range);
    let voltage = raised(microvolts) * g + scale.depth;
    let zero = 2147483648 * g;
    limited_quotient(voltage * scale.factor, zero * scale.factor, 78125) as u16
}

/// A straight code in the output format: straight binary, or two's complement.
pub fn formatted(straight: bool, code: u16) -> u16
    ensures { result ≡ in_format straight code }
{
    if straight { code } else { code ^ 0x8000 }
}

fn is_calibration(acquisition: u32) -> bool
    ensures { result ≡ is_calibration acquisition }
{
    matches!(acquisition, 3..=7)
}

// Question 15.
fn pair_usable(range: u32, gain: u32, high: u32, low: u32) -> bool
    ensures { result ≡ pair_usable range gain high low }
{
    range <= 3
        && gain <= 3
        && is_calibration(high)
        && is_calibration(low)
        && calibration(low) < calibration(high)
}

// Question 16.
fn sums_possible(high_sum: u32, low_sum: u32, raw: u32) -> bool
    ensures { result ≡ sums_possible high_sum low_sum raw }
{
    high_sum <= 2_097_120 && low_sum <= 2_097_120 && raw <= 65_535
}

// The corrected count from the slope and the base that the calibration gives: the nearest whole number, halves up. Six numbers
// of one formula, made in one place: a struct would only be filled and taken apart.
fn nearest_count(slope: u64, base: u64, factor: u64, span: u64, low_sum: u64, raw: u64) -> u32
    requires { CountFits slope base factor span low_sum raw }
    ensures { result ≡ nearest_count slope base factor span low_sum raw }
{
    let up = slope * (32 * raw) + base * span;
    let down = slope * low_sum;
    let twice = 2 * factor;
    let bottom = 78125 * span;
    limited_quotient(twice * up + bottom, twice * down, 2 * bottom)
}

// The corrected count of a raw code, once the questions are met. Likewise seven numbers, as C hands them over.
fn corrected_count(
    range: u32,
    gain: u32,
    high: u32,
    low: u32,
    high_sum: u32,
    low_sum: u32,
    raw: u32,
) -> u32
    requires { Correctable high low high_sum low_sum raw }
    ensures { result ≡ corrected_count range gain high low high_sum low_sum raw }
{
    let g = gain_of(gain);
    let scale = scale_of(range);
    let low_voltage = u64::from(calibration(low));
    let slope = g * (u64::from(calibration(high)) - low_voltage);
    let base = low_voltage * g + scale.depth;
    let span = u64::from(high_sum - low_sum);
    nearest_count(
        slope,
        base,
        scale.factor,
        span,
        u64::from(low_sum),
        u64::from(raw),
    )
}

/// The two-point correction of a raw straight code: the corrected code, 0 to 65,535. `range` and `gain` are those that the codes
/// were taken under, `high` and `low` the acquisition codes of two calibrations, 3 to 7, and the sums those of 32 straight codes
/// at each. C hands its numbers over one by one, and any numbers: wrong ones are refused with 15, 16 or 17.
#[tactic(auto, unfolding(crate::specs::Correction::corrected_answer, crate::specs::Answers::answered, crate::specs::Answers::asked))]
pub fn corrected(
    range: u32,
    gain: u32,
    high: u32,
    low: u32,
    high_sum: u32,
    low_sum: u32,
    raw: u32,
) -> Answer
    ensures { result ≡ corrected_answer range gain high low high_sum low_sum raw }
{
    if !pair_usable(range, gain, high, low) {
        return Err(Refusal::BadCalibration);
    }
    if !sums_possible(high_sum, low_sum, raw) {
        return Err(Refusal::BadCodes);
    }
    if high_sum <= low_sum {
        return Err(Refusal::BadSums);
    }
    Ok(corrected_count(range, gain, high, low, high_sum, low_sum, raw))
}
