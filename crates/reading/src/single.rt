// A single float by its pattern of bits. Of the patterns that are not a number, the type holds one.
ghost use Rattle.std.specs.Prelude.{◌≡◌, ◌^◌, ◌<◌, true};
ghost use Rattle.reading.specs.Patterns.{canonical};

mod bits;
mod kind;

/// A reading of the newer sensors: a single float by its bits, where one value stands for all that is not a number.
#[derive(Clone, Copy, PartialEq, Eq, Debug)]
pub struct Single {
    bits: u32,
    ghost fits: { bits < 2 ^ 32 },
    ghost one: { canonical bits ≡ true },
}
