// Streams that break off, and that give or take little at a time.
use super::{read_all, read_first, write_whole};
use std::io;
use std::io::{ErrorKind, Read, Write};
use std::test::Fail;

// Gives one byte at a time, and is interrupted before each.
#[derive(Drop)]
struct Slow<'a> {
    left: &'a [u8],
    ready: bool,
}

impl Read for Slow<'_> {
    fn read(&mut self, buf: &mut [u8]) -> io::Result<usize> {
        self.ready = !self.ready;
        if self.ready {
            return Err(io::Error::from(ErrorKind::Interrupted));
        }
        let few = buf.len().min(1);
        self.left.read(&mut buf[..few])
    }
}

// Fails at each read.
#[derive(Drop)]
struct Broken;

impl Read for Broken {
    fn read(&mut self, _buf: &mut [u8]) -> io::Result<usize> {
        Err(io::Error::from(ErrorKind::ConnectionReset))
    }
}

// Takes two bytes at a time, and is full after five.
#[derive(Drop)]
struct Narrow {
    held: Vec<u8>,
}

impl Write for Narrow {
    fn write(&mut self, buf: &[u8]) -> io::Result<usize> {
        let room = 5usize.saturating_sub(self.held.len()).min(2);
        let few = buf.len().min(room);
        self.held.extend_from_slice(&buf[..few])?;
        Ok(few)
    }

    fn flush(&mut self) -> io::Result<()> {
        Ok(())
    }
}

#[test]
fn first_bytes(rt: HostRuntime) -> Result<(), Fail> {
    let all = [3u8, 1, 4, 1, 5];
    for most in [0usize, 2, 5, 6] {
        let few = most.min(5);
        let mut input = all.as_slice();
        let bytes = read_first(rt.alloc(), &mut input, most)?;
        assert_eq!(rt; bytes.as_slice(), &all[..few], "at {most}");
        assert_eq!(rt; input, &all[few..], "at {most}");
        let mut slow = Slow {
            left: &all,
            ready: false,
        };
        let bytes = read_first(rt.alloc(), &mut slow, most)?;
        assert_eq!(rt; bytes.as_slice(), &all[..few], "at {most}");
        assert_eq!(rt; slow.left, &all[few..], "at {most}");
    }
    let bytes = read_all(rt.alloc(), &mut all.as_slice())?;
    assert_eq!(rt; bytes.as_slice(), all.as_slice());
    Ok(())
}

// An input that breaks after two bytes gives no third.
#[test]
fn broken_inputs(rt: HostRuntime) -> Result<(), Fail> {
    let two = [3u8, 1];
    let bytes = read_first(rt.alloc(), &mut two.as_slice().chain(Broken), 2)?;
    assert_eq!(rt; bytes.as_slice(), two.as_slice());
    let third = read_first(rt.alloc(), &mut two.as_slice().chain(Broken), 3);
    assert!(rt; third.is_err_and(|fault| fault.kind() == ErrorKind::ConnectionReset));
    let all = read_all(rt.alloc(), &mut two.as_slice().chain(Broken));
    assert!(rt; all.is_err_and(|fault| fault.kind() == ErrorKind::ConnectionReset));
    Ok(())
}

#[test]
fn narrow_outputs(rt: HostRuntime) -> Result<(), Fail> {
    let mut output = Narrow {
        held: Vec::new(rt.alloc()),
    };
    write_whole(&mut output, b"pea")?;
    write_whole(&mut output, b"")?;
    let full = write_whole(&mut output, b"pod");
    assert!(rt; full.is_err_and(|fault| fault.kind() == ErrorKind::WriteZero));
    assert_eq!(rt; output.held.as_slice(), b"peapo".as_slice());
    Ok(())
}
