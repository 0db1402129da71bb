// The journal's recovery, guarded, as mathematics: entries and counts that no batch can leave are passed over. There is no code here to run: the
// contract is a theorem.
#![tactic(auto)]

ghost use Rattle.guarded_journal.specs.Promises.{RecoveredSo};

// Recovery that passes over garbage may be stopped at any act and started again.
pub fn recovery_stands() -> u8
    ensures { RecoveredSo }
{
    0
}
