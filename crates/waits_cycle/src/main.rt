// The same program as waits, on winches that wait for one another, since the gate runs a program on one input.
#![tactic(auto)]

fn main(rt: HostRuntime) -> anyhow::Result<()> {
    desk::run_waits(&rt)
}
