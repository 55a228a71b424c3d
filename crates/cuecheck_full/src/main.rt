// The same program as cuecheck, on a sheet of exactly 2,048 lines, since the gate runs a program on one input.
#![tactic(auto)]

use std::io;

fn main(rt: HostRuntime) -> io::Result<()> {
    desk::run(&rt)
}
