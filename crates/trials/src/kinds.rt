// The two kinds of readings as the trials see them: how one is drawn, and what it is by the rules alone.
use reading::{Count, Reading, Single};

pub trait Kind: Reading {
    // The reading that so many random bits give.
    fn drawn(bits: u32) -> Self;

    // Its rank; none where it is missing.
    fn present(&self) -> Option<i64>;
}

impl Kind for Count {
    // One in eight is missing, one in eight is any count, and the others are small, so that ranks are often alike.
    fn drawn(bits: u32) -> Count {
        let [kind, high, low, _] = bits.to_be_bytes();
        match kind & 7 {
            0 => Count::from_bytes(0x80, 0),
            1 => Count::from_bytes(high, low),
            2 => Count::from_bytes(0xFF, high | 0xF0),
            _ => Count::from_bytes(0, high & 15),
        }
    }

    fn present(&self) -> Option<i64> {
        if self.value == -32_768 {
            None
        } else {
            Some(i64::from(self.value))
        }
    }
}

// Patterns at the edges: both zeros, ones, infinities, the least and the greatest numbers, and five that are not a number.
const PATTERNS: [u32; 16] = [
    0x0000_0000,
    0x8000_0000,
    0x3F80_0000,
    0xBF80_0000,
    0x7F80_0000,
    0xFF80_0000,
    0x7F7F_FFFF,
    0xFF7F_FFFF,
    0x0000_0001,
    0x8000_0001,
    0x007F_FFFF,
    0x7FC0_0000,
    0x7F80_0001,
    0xFFC0_0000,
    0xFFFF_FFFF,
    0x7FBF_FFFF,
];

impl Kind for Single {
    // One in four is of any pattern, the others are of those at the edges.
    fn drawn(bits: u32) -> Single {
        let any = bits.rotate_left(7);
        let pattern = if bits & 3 == 0 {
            any
        } else {
            PATTERNS[(bits >> 2) as usize & 15]
        };
        Single::from_bits(pattern)
    }

    fn present(&self) -> Option<i64> {
        let bits = self.to_bits();
        let exponent = (bits >> 23) & 0xFF;
        let fraction = bits & 0x007F_FFFF;
        if exponent == 0xFF && fraction != 0 {
            return None;
        }
        let size = i64::from(bits & 0x7FFF_FFFF);
        Some(if bits >> 31 == 0 { size } else { -size })
    }
}
