//! Takes raw counts in from standard input, and writes the journal of an archive of their rows to standard output.
#![tactic(auto)]

use intake_bytes::intake_stream;
use std::io;

fn main(rt: HostRuntime) -> io::Result<()> {
    intake_stream(rt.alloc(), &mut rt.stdin(), &mut rt.stdout())
}
