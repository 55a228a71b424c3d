// Orders the winches of a wait list on standard input.
#![tactic(auto)]

fn main(rt: HostRuntime) -> anyhow::Result<()> {
    desk::run_waits(&rt)
}
