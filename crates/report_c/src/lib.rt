// The report of a sheet of axes for a program in C: the call that `include/cue_report.h` declares.
// C is told a refusal by its number.
#![tactic(auto)]

ghost use Rattle.report.specs.Report.{Reported};

// Reads a sheet of axes, writes the report to the front of the space and answers its length; or
// answers 25, which no report's length is, where the space is shorter than 388 bytes, before the
// sheet is looked at.
#[unsafe(no_mangle)]
#[tactic(auto, using(report::proofs::Lengths::written_apart))]
pub extern "C" fn cue_report(sheet: &[u8], space: &mut [u8]) -> usize
    ensures { Reported sheet.now space.old space.new result }
{
    report::cue_report(sheet, space).unwrap_or_else(|refusal| refusal.number() as usize)
}
