// The patterns of single floats.
ghost use Rattle.std.specs.Prelude.{◌≡◌, if◌then◌else◌};
ghost use Rattle.reading.specs.Patterns.{not_a_number, quiet};

use super::Single;

const INFINITY: u32 = 0x7F80_0000;

pub const QUIET: u32 = 0x7FC0_0000;

pub const SIGN: u32 = 0x8000_0000;

/// Is it a pattern that is not a number?
pub fn is_nan(bits: u32) -> bool
    ensures { result ≡ not_a_number bits }
{
    INFINITY < bits % SIGN
}

impl Single {
    /// The reading of any pattern: every one that is not a number becomes the one value that stands for them.
    pub fn from_bits(bits: u32) -> Single
        ensures { result.bits ≡ (if not_a_number bits then quiet else bits) }
    {
        if is_nan(bits) {
            Single { bits: QUIET }
        } else {
            Single { bits }
        }
    }

    /// The bits that are held.
    pub fn to_bits(&self) -> u32
        ensures { result ≡ self.now.bits }
    {
        self.bits
    }
}
