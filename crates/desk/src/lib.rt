// What the programs do with their standard input.
#![tactic(auto)]

mod sheet;
mod waiting;

pub use sheet::run;
pub use waiting::run_waits;
