// Reads a schedule from standard input and prints its run. A read error counts as the end of what was read.
#![tactic(auto)]

use printing::print_run;
use std::io;
use streams::{read_full, unless_left};

fn main(rt: HostRuntime) -> io::Result<()> {
    // One byte more than a schedule may have, so that a longer one is seen to be longer.
    let mut input = [0u8; 65537];
    unless_left(print_run(&rt, read_full(rt.stdin(), &mut input)))
}
