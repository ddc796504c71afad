//! A read or a write, and its questions 1 to 5: the first that is answered with no refuses it (data sheet, "Refusals").
#![tactic(auto, unfolding(analog::specs::Answers::asked))]

ghost use Rattle.std.specs.Prelude.{◌≡◌, ◌^◌, ltb, [], ◌∷◌, MatchResult};
ghost use Rattle.analog.specs.Answers.{question, asked};
ghost use Rattle.analog.specs.declared.Refusal.TheVariants.{BadValue, BadDirection};
ghost use Rattle.pmc330_model.specs.Map.{class_of, is_readable};
ghost use Rattle.pmc330_model.specs.Questions.{access_questions};
ghost use Rattle.pmc330.specs.Widths.{bits_of, IsAccess};

use crate::map;
use crate::widths::Width;
use analog::Refusal;
use pmc330_model::Register;

// A read or a write of which questions 1 to 3 are met.
#[derive(Clone, Copy)]
pub(crate) struct Access {
    pub width: Width,
    pub offset: u32,
}

// One question of a call: a no refuses it.
fn ask(met: bool, refusal: Refusal) -> Result<(), Refusal>
    ensures { result ≡ asked (question refusal met ∷ []) }
{
    if met { Ok(()) } else { Err(refusal) }
}

impl Access {
    // Questions 1 to 3, of any numbers: here they become a width and a mapped offset.
    pub(crate) fn of(width: u32, offset: u32) -> Result<Self, Refusal>
        ensures { MatchResult result (IsAccess width offset) (λ refusal. asked (access_questions width offset (class_of offset)) ≡ Err refusal) }
    {
        let width = Width::try_from(width)?;
        ask(width.is_aligned(offset), Refusal::BadOffset)?;
        ask(
            !matches!(map::register_at(offset), Register::Unmapped),
            Refusal::Unmapped,
        )?;
        Ok(Access { width, offset })
    }

    // The register at its offset, looked up where it is used: the compiler then goes by the table's byte, and works out a slot
    // for a mailbox alone (tried: kept here, a match of the byte and one of the register follow each other).
    pub(crate) fn register(self) -> Register
        ensures { result ≡ class_of self.offset }
    {
        map::register_at(self.offset)
    }
}

fn is_readable(register: Register) -> bool
    ensures { result ≡ is_readable register }
{
    !matches!(register, Register::StartConvert)
}

// Question 5 of a read.
pub(crate) fn of_read(register: Register) -> Result<(), Refusal>
    ensures { result ≡ asked (question BadDirection (is_readable register) ∷ []) }
{
    ask(is_readable(register), Refusal::BadDirection)
}

// Question 4.
pub(crate) fn of_value(width: Width, value: u32) -> Result<(), Refusal>
    ensures { result ≡ asked (question BadValue (ltb value (2 ^ bits_of width)) ∷ []) }
{
    ask(u64::from(value) < width.numbers(), Refusal::BadValue)
}
