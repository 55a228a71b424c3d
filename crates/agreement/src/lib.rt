// That books and wait lists are answered as a reader expects, by the definitions alone: no code is run.
#![tactic(auto)]

ghost use Rattle.agreement.specs.Samples.{SamplesAgree};
ghost use Rattle.agreement.specs.Histories.{HistoriesAgree};
ghost use Rattle.agreement.specs.WaitLists.{WaitsAgree};

// That the definitions say of each of the thirteen sample books what stands beside it.
pub fn samples_agree()
    ensures { SamplesAgree }
{}

// That they say of each of the thirty-seven other books what stands beside it.
pub fn histories_agree()
    ensures { HistoriesAgree }
{}

// That they say of each of the fourteen wait lists what stands beside it: an order, a cycle, or a refusal.
pub fn waits_agree()
    ensures { WaitsAgree }
{}
