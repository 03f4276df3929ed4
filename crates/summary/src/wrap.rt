// A number of 32 bits that is added with wrap, as lengths, places and counts of readings are.
// It is no `Wrapping<u32>`: in a law that type's number is any number, also one past 32 bits, and nothing added to it would change it.
ghost use Rattle.std.specs.Prelude.{◌^◌, ◌<◌};

/// A number of 32 bits that is added with wrap.
#[derive(Clone, Copy, PartialEq, Eq, Debug)]
pub struct Wrap {
    pub value: u32,
    ghost fits: { value < 2 ^ 32 },
}
