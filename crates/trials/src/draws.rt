// Numbers that look random, from a fixed seed: Marsaglia's xorshift of 32 bits, with his shifts 13, 17 and 5.

#[derive(Clone, Copy, PartialEq, Eq, Debug)]
pub struct Draws {
    // Not 0, of which only 0 would follow.
    state: u32,
}

impl Draws {
    pub(crate) fn from_seed(seed: u32) -> Draws {
        Draws { state: seed.max(1) }
    }

    pub(crate) fn next(&mut self) -> u32 {
        let mut x = self.state;
        x ^= x << 13;
        x ^= x >> 17;
        x ^= x << 5;
        self.state = x;
        x
    }

    // A number below `n`; 0 where there is none.
    pub(crate) fn below(&mut self, n: u32) -> u32 {
        self.next().checked_rem(n).unwrap_or(0)
    }

    // A length or a place below `n`; 0 where there is none.
    pub(crate) fn place_below(&mut self, n: usize) -> usize {
        (self.next() as usize).checked_rem(n).unwrap_or(0)
    }

    // Once in so many times.
    pub(crate) fn once_in(&mut self, n: u32) -> bool {
        self.below(n) == 0
    }

    // A level by trailing zero bits: each is half as frequent as the one below it.
    pub(crate) fn level(&mut self) -> u8 {
        (self.next().trailing_zeros() & 15) as u8
    }
}
