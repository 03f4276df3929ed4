//! Reports a journal of counts from standard input, of which the first 32,768 bytes are read.
#![tactic(auto)]

use report_text::report_stream;
use std::io;

fn main(rt: HostRuntime) -> io::Result<()> {
    report_stream(rt.alloc(), &mut rt.stdin(), &mut rt.stdout())
}
