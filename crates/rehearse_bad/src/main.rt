// The same program as rehearse, on scripts with a line that cannot be read: first on the one on standard input, and then on each
// of a list, which is printed above its answer, since the gate runs a program on one input.
#![tactic(auto)]

mod scripts;

use scripts::SCRIPTS;
use stage::{run, run_script};

fn main(rt: HostRuntime) -> anyhow::Result<()> {
    run(&rt)?;
    for script in SCRIPTS {
        println!(rt; "{script}")?;
        run_script(&rt, script.as_bytes())?;
    }
    println!(rt; "a byte that is no text")?;
    run_script(&rt, &[255])
}
