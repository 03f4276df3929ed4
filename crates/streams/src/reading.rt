// Bytes read from the front of an input.
ghost use Rattle.std.specs.Prelude.{◌≡◌, ◌<◌, Some, None, length, take, IfOk, OnErr};
ghost use Rattle.std.specs.Io.{ReadsAtMost};
ghost use Rattle.std.specs.Io.KnownBytes.{Keeps, Consumes, IsAtEnd};
ghost use Rattle.streams.specs.Streams.{First, SomeFront};

use std::alloc::Global;
use std::io;
use std::io::{ErrorKind, Read};

// One read, tried again where a signal interrupts it.
fn read_some<I: Read>(input: &mut I, buf: &mut [u8]) -> io::Result<usize>
    ensures bound { ReadsAtMost result buf.new }
    ensures ok { IfOk result (λ n.
        Consumes (I.remaining input.old) (I.remaining input.new) (take n buf.new)) }
    ensures end { IfOk result (λ n. n ≡ 0 → 0 < length buf.old → IsAtEnd (I.remaining input.new)) }
    ensures err { OnErr result (Keeps (I.remaining input.old) (I.remaining input.new)) }
{
    for _ in 0..u64::MAX {
        match input.read(buf) {
            Ok(n) => return Ok(n),
            Err(fault) => {
                if fault.kind() != ErrorKind::Interrupted {
                    return Err(fault);
                }
            }
        }
    }
    Err(io::Error::from(ErrorKind::TimedOut))
}

// Reads until the buffer is full or the input at its end, and answers how many bytes that were.
#[tactic(auto, unfolding(crate::specs::Streams::first))]
fn fill<I: Read>(input: &mut I, buf: &mut [u8]) -> io::Result<usize>
    ensures bound { ReadsAtMost result buf.new }
    ensures ok { IfOk result (λ n. First (Some (length buf.old))
        (I.remaining input.old) (I.remaining input.new) (take n buf.new)) }
    ensures err { OnErr result (SomeFront (Some (length buf.old))
        (I.remaining input.old) (I.remaining input.new)) }
{
    let mut filled = 0;
    while filled < buf.len() {
        let n = read_some(input, &mut buf[filled..])?;
        if n == 0 {
            return Ok(filled);
        }
        filled += n;
    }
    Ok(filled)
}

/// Reads the first bytes of an input, at most so many. No more than these are taken from it.
pub fn read_first<I: Read>(heap: Global, input: &mut I, most: usize) -> io::Result<Vec<u8>>
    ensures ok { IfOk result (λ v.
        First (Some most) (I.remaining input.old) (I.remaining input.new) v.items) }
    ensures err { OnErr result (SomeFront (Some most)
        (I.remaining input.old) (I.remaining input.new)) }
{
    let mut bytes = vec![in heap; 0u8; most]?;
    let n = fill(input, bytes.as_mut_slice())?;
    bytes.truncate(n);
    Ok(bytes)
}

/// Reads an input to its end.
#[tactic(auto, unfolding(crate::specs::Streams::first))]
pub fn read_all<I: Read>(heap: Global, input: &mut I) -> io::Result<Vec<u8>>
    ensures ok { IfOk result (λ v.
        First None (I.remaining input.old) (I.remaining input.new) v.items) }
    ensures err { OnErr result (SomeFront None (I.remaining input.old) (I.remaining input.new)) }
{
    let mut bytes = Vec::new(heap);
    input.read_to_end(&mut bytes)?;
    Ok(bytes)
}
