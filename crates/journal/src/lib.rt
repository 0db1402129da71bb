// The journal, as mathematics: a batch of line writes happens wholly or not at all. There is no code here to run: each contract is a theorem.
#![tactic(auto)]

ghost use Rattle.journal.specs.Promises.{LogicalSo, RecoveredSo, WholeOrNot};

// Whatever stops, at any act and whatever the cache had brought, a batch happened or it did not; m entries use 3 m + 2 lines.
pub fn batches_stand() -> u8
    ensures { WholeOrNot }
{
    0
}

// Recovery may be stopped at any act and started again.
pub fn recovery_stands() -> u8
    ensures { RecoveredSo }
{
    0
}

// What survives is what the committed entries, overlaid on the lines, say.
pub fn survival_stands() -> u8
    ensures { LogicalSo }
{
    0
}
