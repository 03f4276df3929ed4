// Counts as a kind of reading: code 1, two bytes. The lowest number says that the sensor gave nothing; the rank is the value.
ghost use Rattle.std.specs.Prelude.{◌≡◌};
ghost use Rattle.std.proofs.Common.{refl, ap, ◌∙◌, to_z};
ghost use Rattle.reading.specs.Kinds.{count_missing, count_bytes, count_said, Decoded};
ghost use Rattle.reading.specs.Restoring.{restored_count};
ghost use Rattle.std.specs.Int.{w16};
ghost use Rattle.std.proofs.lemmas.Int.{to_z-of_z};
ghost use Rattle.reading.specs.Digits.{two_back};
ghost use Rattle.reading.specs.Equal.{count_equal, count_same};
ghost use Rattle.reading.specs.CountReadingLemmas.{whole, fitting, count_told};

use super::Count;
use crate::Reading;
use crate::bytes::place;

impl Count {
    /// The count that two bytes say: every pair of bytes says one. No `From`: it is named as the library names it for numbers, the higher byte first.
    pub fn from_bytes(high: u8, low: u8) -> Count
        ensures { result.value ≡ count_said high low }
    {
        let value = i16::from_be_bytes([high, low]);
        Count { value }
    }
}

impl Reading for Count {
    const CODE: u8 = 1;

    const WIDTH: usize = 2;

    ghost CODE = { 1 };

    ghost WIDTH = { 2 };

    ghost missing = { λ x. count_missing x.value };

    ghost ranked = { λ x. x.value };

    ghost bytes = { λ x. count_bytes x.value };

    ghost restored = { restored_count };

    ghost measured = { λ x. refl };

    ghost same = { count_same };

    ghost told = { count_told };

    ghost back = { λ x. count_equal _ x (ap (to_z w16) (two_back _ (whole x)) ∙ to_z-of_z w16 _ (fitting x)) };

    fn is_missing(&self) -> bool {
        self.value == i16::MIN
    }

    fn rank(&self) -> i64 {
        i64::from(self.value)
    }

    fn encode(&self, out: &mut [u8], at: usize) -> bool {
        place(out, at, &self.value.to_be_bytes())
    }

    fn decode(from: &[u8]) -> Option<Count> {
        let [high, low] = from else {
            return None;
        };
        Some(Count::from_bytes(*high, *low))
    }

    fn restore(from: &[u8]) -> Count {
        match from {
            [high, low] => Count::from_bytes(*high, *low),
            _ => Count { value: 0 },
        }
    }
}
