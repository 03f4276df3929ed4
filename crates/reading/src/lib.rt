//! What a sensor's reading is: a trait for any kind of reading, and the two kinds that the bench has, counts and single floats;
//! and the counts that a raw run says. Every call takes a fixed number of steps, but for `counts`, which takes as many as there are bytes, and
//! wants memory.
#![tactic(auto)]

ghost use Rattle.std.specs.Prelude.{◌≡◌, ℕ, Bool, List, length, ℤ, Decides};
ghost use Rattle.reading.specs.Bytes.{Written};
ghost use Rattle.reading.specs.Kinds.{Decoded};

mod bytes;
mod count;
mod laws;
mod raw_runs;
mod single;

pub use count::Count;
pub use laws::{rank_values, round_trips};
pub use raw_runs::counts;
pub use single::Single;

/// A kind of reading.
pub trait Reading: Copy + Eq {
    /// The kind's number in a journal's head.
    const CODE: u8;
    /// How many bytes one encoded reading takes.
    const WIDTH: usize;

    ghost CODE: { ℕ };

    ghost WIDTH: { ℕ };

    // Did the sensor give nothing?
    ghost missing: { Self → Bool };

    // The whole number by which peaks are compared.
    ghost ranked: { Self → ℤ };

    // The encoded reading.
    ghost bytes: { Self → List ℕ };

    // The reading that bytes stand for, where they are known to be an encoded reading; other bytes stand for some reading too.
    ghost restored: { List ℕ → Self };

    /// Did the sensor give nothing?
    fn is_missing(&self) -> bool
        ensures { result ≡ missing self.now };

    /// The whole number by which peaks are compared, and nothing else.
    fn rank(&self) -> i64
        ensures { result ≡ ranked self.now };

    /// Writes the encoded reading into `out` from `at` on; false, with nothing written, where it does not fit. A bool and no `Result`: there is one way to
    /// fail, and by the project's rule the answer is no.
    fn encode(&self, out: &mut [u8], at: usize) -> bool
        ensures { Written out.old at (bytes self.now) result out.new };

    /// The reading whose encoding is exactly `from`; none where no reading has it.
    fn decode(from: &[u8]) -> Option<Self>
        ensures { Decoded bytes from.now result };

    /// The reading whose encoding `from` is known to be, without a test; some reading where it is none.
    fn restore(from: &[u8]) -> Self
        ensures { result ≡ restored from.now };

    // Every encoded reading is as long as the width.
    ghost measured: { (x : Self) → length (bytes x) ≡ WIDTH };

    // Readings are equal where they are one value, and not where they only rank alike.
    ghost same: { (x y : Self) → Decides (Self.eq x y) (x ≡ y) };

    // Two readings with the same bytes are one.
    ghost told: { (x y : Self) → bytes x ≡ bytes y → x ≡ y };

    // The bytes of a reading stand for it.
    ghost back: { (x : Self) → restored (bytes x) ≡ x };
}

#[cfg(test)]
mod tests {
    use super::*;

    // A pattern of 32 bits; its rank, if it is a reading; whether that reading is missing.
    const PATTERNS: [(u32, Option<i64>, bool); 24] = [
        // zeros, and the smallest and largest of each class of numbers
        (0x0000_0000, Some(0), false),
        (0x8000_0000, Some(0), false),
        (0x0000_0001, Some(1), false),
        (0x8000_0001, Some(-1), false),
        (0x007F_FFFF, Some(8_388_607), false),
        (0x807F_FFFF, Some(-8_388_607), false),
        (0x0080_0000, Some(8_388_608), false),
        (0x8080_0000, Some(-8_388_608), false),
        (0x3F80_0000, Some(1_065_353_216), false),
        (0xBF80_0000, Some(-1_065_353_216), false),
        (0x7F7F_FFFF, Some(2_139_095_039), false),
        (0xFF7F_FFFF, Some(-2_139_095_039), false),
        (0x7F80_0000, Some(2_139_095_040), false),
        (0xFF80_0000, Some(-2_139_095_040), false),
        // not a number: signalling, then quiet
        (0x7F80_0001, None, false),
        (0x7FBF_FFFF, None, false),
        (0xFF80_0001, None, false),
        (0xFFBF_FFFF, None, false),
        (0x7FC0_0000, Some(0), true),
        (0x7FC0_0001, None, false),
        (0x7FFF_FFFF, None, false),
        (0xFFC0_0000, None, false),
        (0xFFC0_0001, None, false),
        (0xFFFF_FFFF, None, false),
    ];

    #[test]
    fn float_patterns(rt: HostRuntime) {
        for (bits, rank, missing) in PATTERNS {
            let bytes = bits.to_be_bytes();
            match Single::decode(&bytes) {
                None => {
                    assert_eq!(rt; rank, None);
                    // taken in from a sensor, it is the one missing reading
                    let held = Single::from_bits(bits);
                    assert!(rt; held.is_missing() && held.to_bits() == 0x7FC0_0000);
                }
                Some(x) => {
                    assert_eq!(rt; rank, Some(x.rank()));
                    assert_eq!(rt; x.is_missing(), missing);
                    assert_eq!(rt; x.to_bits(), bits);
                    let mut out = [7u8; 6];
                    assert!(rt; x.encode(&mut out, 1));
                    assert!(rt; out == [7, bytes[0], bytes[1], bytes[2], bytes[3], 7]);
                    assert!(rt; !x.encode(&mut out, 3));
                }
            }
        }
    }

    #[test]
    fn zeros_differ_and_rank_alike(rt: HostRuntime) {
        let plus = Single::from_bits(0);
        let minus = Single::from_bits(0x8000_0000);
        assert!(rt; plus != minus);
        assert_eq!(rt; plus.rank(), minus.rank());
        let one = Single::from_bits(0x7F80_0001);
        let other = Single::from_bits(0xFFFF_FFFF);
        assert!(rt; one == other);
    }
}
