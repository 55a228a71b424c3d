// The same program as cuecheck, on an input with no byte, since the gate runs a program on one input.
#![tactic(auto)]

use std::io;

fn main(rt: HostRuntime) -> io::Result<()> {
    desk::run(&rt)
}
