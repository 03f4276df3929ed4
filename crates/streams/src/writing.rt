// Bytes written to an output.
ghost use Rattle.std.specs.Prelude.{◌<◌, take, length, IfOk, OnOk, OnErr};
ghost use Rattle.std.specs.Io.{WritesAtMost};
ghost use Rattle.std.specs.Io.KnownBytes.{Keeps, Appends};
ghost use Rattle.streams.specs.Streams.{Begins};

use std::io;
use std::io::{ErrorKind, Write};

// One write, tried again where a signal interrupts it.
fn write_some<O: Write>(output: &mut O, bytes: &[u8]) -> io::Result<usize>
    ensures bound { WritesAtMost result bytes.now }
    ensures ok { IfOk result (λ n.
        Appends (O.contents output.old) (O.contents output.new) (take n bytes.now)) }
    ensures err { OnErr result (Keeps (O.contents output.old) (O.contents output.new)) }
{
    for _ in 0..u64::MAX {
        match output.write(bytes) {
            Ok(n) => return Ok(n),
            Err(fault) => {
                if fault.kind() != ErrorKind::Interrupted {
                    return Err(fault);
                }
            }
        }
    }
    Err(io::Error::from(ErrorKind::TimedOut))
}

/// Writes all of the bytes, or at an error a beginning of them that is not the whole.
pub fn write_whole<O: Write>(output: &mut O, bytes: &[u8]) -> io::Result<()>
    ensures ok { OnOk result (Appends (O.contents output.old) (O.contents output.new) bytes.now) }
    ensures err { OnErr result (Begins (O.contents output.old) (O.contents output.new) bytes.now) }
{
    let mut done = 0;
    while done < bytes.len() {
        let n = write_some(output, &bytes[done..])?;
        if n == 0 {
            return Err(io::Error::from(ErrorKind::WriteZero));
        }
        done += n;
    }
    Ok(())
}
