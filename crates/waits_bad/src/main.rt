// The same program as waits, on a row that is out of range, since the gate runs a program on one input.
#![tactic(auto)]

fn main(rt: HostRuntime) -> anyhow::Result<()> {
    desk::run_waits(&rt)
}
