//! The three widths of an access.
ghost use Rattle.std.specs.Prelude.{◌≡◌, ◌/◌, ◌%◌, ◌^◌, eqb};
ghost use Rattle.pmc330_model.specs.Questions.{is_aligned};
ghost use Rattle.pmc330.specs.Widths.{bits_of, width_of};

use analog::Refusal;

#[derive(Clone, Copy, Debug, PartialEq, Eq)]
pub(crate) enum Width {
    Byte,
    Half,
    Word,
}

// Question 1.
impl TryFrom<u32> for Width {
    type Error = Refusal;

    ghost try_from_gives = { λ bits width. width ≡ width_of bits };

    fn try_from(bits: u32) -> Result<Self, Refusal> {
        match bits {
            8 => Ok(Width::Byte),
            16 => Ok(Width::Half),
            32 => Ok(Width::Word),
            _ => Err(Refusal::BadWidth),
        }
    }
}

impl Width {
    pub(crate) fn bytes(self) -> u32
        ensures { result ≡ bits_of self / 8 }
    {
        match self {
            Width::Byte => 1,
            Width::Half => 2,
            Width::Word => 4,
        }
    }

    // Question 2.
    pub(crate) fn is_aligned(self, offset: u32) -> bool
        ensures { result ≡ is_aligned (bits_of self) offset }
    {
        offset < 256 && offset % self.bytes() == 0
    }

    // How many numbers it has.
    pub(crate) fn numbers(self) -> u64
        ensures { result ≡ 2 ^ bits_of self }
    {
        match self {
            Width::Byte => 0x100,
            Width::Half => 0x1_0000,
            Width::Word => 0x1_0000_0000,
        }
    }
}
