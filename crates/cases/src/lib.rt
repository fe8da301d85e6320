//! Worked cases of the rules, and runs that show what the laws say of them. No function here does anything: each
//! stands for what its contract states.

#![tactic(auto)]

ghost use Rattle.cases.specs.Examples.{AbandonedWriteStamped, CompactionDone, SessionOpenedAgain, WriteOvertaken, PatienceIsSharp, RunsAsWritten};
ghost use Rattle.cases.specs.Orders.{OneRightOrder, LeftOut, MadeUp, Twice, AgainstTime, AgainstReadOfFirst, AgainstReadOfWritten, AgainstLook};
ghost use Rattle.cases.specs.Worked.{WorkedCases};
ghost use Rattle.cases.specs.WrongStores.{NoOrder, drops_needed, skips_slot, reads_head, frees_early};

// The table of worked cases: what the rules reply is what is expected.
#[tactic(auto, using(crate::proofs::Worked::worked_cases))]
pub fn worked_cases()
    ensures worked { WorkedCases }
{}

// What the laws speak of does happen, and the bound of patience is attained.
pub fn examples_of_runs()
    ensures abandoned { AbandonedWriteStamped }
    ensures done { CompactionDone }
    ensures again { SessionOpenedAgain }
    ensures overtaken { WriteOvertaken }
    ensures patience { PatienceIsSharp }
    ensures written { RunsAsWritten }
{}

// The law of one order grants a run its right order alone; and for each clause of it, an order that it refuses.
pub fn wrong_orders_are_refused()
    ensures right { OneRightOrder }
    ensures all { LeftOut }
    ensures only { MadeUp }
    ensures once { Twice }
    ensures time { AgainstTime }
    ensures first { AgainstReadOfFirst }
    ensures second { AgainstReadOfWritten }
    ensures look { AgainstLook }
{}

// Stores that break a rule once, and are found out: the law of one order refuses their runs, whatever the order.
pub fn wrong_runs_are_refused()
    ensures needed { NoOrder drops_needed }
    ensures early { NoOrder skips_slot }
    ensures newest { NoOrder reads_head }
    ensures freed { NoOrder frees_early }
{}
