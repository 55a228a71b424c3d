// The same program as rehearse, on trap, lift and blackout with tickets and marks, and on lists
// that are too short, since the gate runs a program on one input.
#![tactic(auto)]

fn main(rt: HostRuntime) -> anyhow::Result<()> {
    stage::run(&rt)
}
