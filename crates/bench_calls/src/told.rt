// What a call tells a program that is not written in Rattle.
ghost use Rattle.std.specs.Prelude.{◌≡◌};
ghost use Rattle.bench_calls.specs.Tells.{told_of};

use std::alloc::AllocError;

/// The number, where memory did not fail.
#[repr(C)]
#[derive(Clone, Copy)]
pub struct Told {
    pub done: bool,
    pub number: u64,
}

impl Told {
    pub(crate) fn of(answer: Result<u64, AllocError>) -> Told
        ensures { result ≡ told_of answer }
    {
        match answer {
            Ok(number) => Told { done: true, number },
            Err(_) => Told {
                done: false,
                number: 0,
            },
        }
    }
}
