// A count: a signed number of 16 bits, as the older sensors send it.
ghost use Rattle.std.specs.Prelude.{◌^◌, ◌<◌};
ghost use Rattle.std.specs.Int.Signed.{mag};

mod kind;

/// A reading of the older sensors: a signed number of 16 bits.
#[derive(Clone, Copy, PartialEq, Eq, Debug)]
pub struct Count {
    pub value: i16,
    ghost fits: { mag value < 2 ^ 15 },
}
