// Adding with wrap.
ghost use Rattle.std.specs.Prelude.{◌≡◌};
ghost use Rattle.summary.specs.Wraps.{wrap, plus};

use crate::wrap::Wrap;
use std::ops::Add;

impl From<u32> for Wrap {
    ghost from_gives = { λ number made. made ≡ wrap number };

    fn from(value: u32) -> Wrap {
        Wrap { value }
    }
}

impl Add for Wrap {
    type Output = Wrap;

    ghost add_gives = { λ left right sum. sum ≡ plus left right };

    fn add(self, more: Wrap) -> Wrap {
        Wrap {
            value: self.value.wrapping_add(more.value),
        }
    }
}
