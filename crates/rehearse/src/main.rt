// Performs the script of calls on standard input, and prints each call with its answer.
#![tactic(auto)]

fn main(rt: HostRuntime) -> anyhow::Result<()> {
    stage::run(&rt)
}
