// Single floats as a kind of reading: code 2, four bytes. Not-a-number is missing and ranks 0; an infinity is present.
ghost use Rattle.std.specs.Prelude.{◌≡◌};
ghost use Rattle.std.proofs.Common.{refl, sym, ap, ◌∙◌};
ghost use Rattle.reading.specs.Kinds.{single_rank};
ghost use Rattle.reading.specs.Bytes.{four_bytes};
ghost use Rattle.reading.specs.Patterns.{not_a_number};
ghost use Rattle.reading.specs.Restoring.{restored_single};
ghost use Rattle.reading.specs.Digits.{four_back, of_four};
ghost use Rattle.reading.specs.Equal.{single_equal, single_same};
ghost use Rattle.reading.specs.Restored.{single_back};

use super::Single;
use super::bits::{QUIET, SIGN, is_nan};
use crate::Reading;
use crate::bytes::place;

impl Reading for Single {
    const CODE: u8 = 2;

    const WIDTH: usize = 4;

    ghost CODE = { 2 };

    ghost WIDTH = { 4 };

    ghost missing = { λ x. not_a_number x.bits };

    ghost ranked = { λ x. single_rank x.bits };

    ghost bytes = { λ x. four_bytes x.bits };

    ghost restored = { restored_single };

    ghost measured = { λ x. refl };

    ghost same = { single_same };

    ghost told = { λ x y e. single_equal x y (sym (four_back _ x.fits) ∙ ap of_four e ∙ four_back _ y.fits) };

    ghost back = { λ x. single_back x };

    fn is_missing(&self) -> bool {
        is_nan(self.bits)
    }

    fn rank(&self) -> i64 {
        if is_nan(self.bits) {
            0
        } else if self.bits < SIGN {
            i64::from(self.bits)
        } else {
            i64::from(SIGN) - i64::from(self.bits)
        }
    }

    fn encode(&self, out: &mut [u8], at: usize) -> bool {
        place(out, at, &self.bits.to_be_bytes())
    }

    fn decode(from: &[u8]) -> Option<Single> {
        let [a, b, c, d] = from else {
            return None;
        };
        let bits = u32::from_be_bytes([*a, *b, *c, *d]);
        if is_nan(bits) && bits != QUIET {
            return None;
        }
        Some(Single { bits })
    }

    fn restore(from: &[u8]) -> Single {
        match from {
            [a, b, c, d] => Single::from_bits(u32::from_be_bytes([*a, *b, *c, *d])),
            _ => Single::from_bits(0),
        }
    }
}
