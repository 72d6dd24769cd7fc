// The rules of all calls, and what holds of them over any list of calls. No code of a drive stands here: the specs are
// the rules, and each function below only carries a theorem about them in its contract.
#![tactic(auto)]

ghost use Rattle.chains.specs.Sound.{ReadingIsExact};
ghost use Rattle.rules.specs.Examples.{WorkedExamples};
ghost use Rattle.rules.specs.Matching.{AddsFew, EnoughUnused, StartsUnread, StaysUnread};
ghost use Rattle.rules.specs.Runs.{LeavesReopenable};
ghost use Rattle.rules.specs.Served.{ServingSteps};

// Reading a disk takes exactly the sound ones, and gives their layout.
pub fn reading_is_exact()
    ensures { ReadingIsExact }
{}

// A call that is served as its effect says is a step of a run, and the next call can follow it.
pub fn serving_steps()
    ensures { ServingSteps }
{}

// What a list of calls leaves on a disk serves a new drive, once initialised and with every unit closed.
pub fn runs_leave_reopenable_disks()
    ensures { LeavesReopenable }
{}

// Until the first FORMAT or INITIALIZE that is accepted there is no file, and nothing is unsaved.
pub fn unread_stays_empty()
    ensures starts { StartsUnread }
    ensures stays { StaysUnread }
{}

// No call that is not refused adds more files and records than there are free sectors, and so many are really there.
pub fn space_suffices()
    ensures few { AddsFew }
    ensures enough { EnoughUnused }
{}

// The worked examples of the rules.
pub fn worked_examples()
    ensures { WorkedExamples }
{}
