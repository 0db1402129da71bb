// A whole batch, and recovery, each in one stage; and recovery's parts, for those who take a stage to an entry.
ghost use Rattle.std.specs.Prelude.{◌≡◌, ◌*◌, ◌≤◌, length};
ghost use Rattle.programs.specs.Prog.{ask, ret};
ghost use Rattle.plain.specs.Run.{read};
ghost use Rattle.lines.specs.Told.{Follows};
ghost use Rattle.journal.specs.Programs.{apply_all, batch as whole_batch, log_all};
ghost use Rattle.guarded_journal.specs.Programs.{committed as committed_in, is_durable_lem, reapply as reapplied, reapply_all, recover as recovered};
ghost use Rattle.batches.specs.Writes.{writes_of};

use crate::steps::{Write, apply, clear, commit, content_line, log, target_line, write_line};
use lines::act::Act;
use lines::tape::Tape;

fn log_entries(tape: &mut Tape, writes: &[Write]) -> Result<(), Act>
    requires { length writes.now ≤ 65536 }
    ensures { Follows (log_all 0 (writes_of writes.now)) tape.old result tape.new }
{
    for (i, w) in writes.iter().enumerate() {
        log(tape, i as u32, *w)?;
    }
    Ok(())
}

fn apply_entries(tape: &mut Tape, writes: &[Write]) -> Result<(), Act>
    ensures { Follows (apply_all (writes_of writes.now)) tape.old result tape.new }
{
    for w in writes {
        apply(tape, *w)?;
    }
    Ok(())
}

// All of the writes happen, or none of them, whatever stops.
pub fn batch(tape: &mut Tape, writes: &[Write]) -> Result<(), Act>
    requires { length writes.now ≤ 65536 }
    ensures { Follows (whole_batch (writes_of writes.now)) tape.old result tape.new }
{
    log_entries(tape, writes)?;
    commit(tape, writes.len() as u64)?;
    apply_entries(tape, writes)?;
    clear(tape)
}

// A journal with room for so many entries, and durable lines behind it, up to the last.
#[derive(Clone, Copy, Debug, PartialEq, Eq)]
pub struct Journal {
    pub most_entries: u32,
    pub last: u64,
}

impl Journal {
    fn is_durable(self, k: u64) -> bool
        ensures { result ≡ is_durable_lem self.most_entries self.last k }
    {
        (target_line(self.most_entries)..self.last).contains(&k)
    }

    // How many entries are committed, by the superblock. A number that no batch can leave counts for none.
    pub fn committed(self, tape: &mut Tape) -> Result<u32, Act>
        ensures { Follows (ask (read 0) (λ l. ret (committed_in self.most_entries l))) tape.old result tape.new }
    {
        let entries = tape.read(0)?.number();
        if entries > u64::from(self.most_entries) {
            return Ok(0);
        }
        Ok(entries as u32)
    }

    // Applies an entry by what is logged of it. One whose target no batch can have is passed over.
    pub fn reapply(self, tape: &mut Tape, entry: u32) -> Result<(), Act>
        ensures { Follows (reapplied self.most_entries self.last entry) tape.old result tape.new }
    {
        let target = tape.read(target_line(entry))?.number();
        let content = tape.read(content_line(entry))?;
        if !self.is_durable(target) {
            return Ok(());
        }
        write_line(tape, target, content)
    }

    fn reapply_entries(self, tape: &mut Tape, entries: u32) -> Result<(), Act>
        ensures { Follows (reapply_all self.most_entries self.last 0 entries) tape.old result tape.new }
    {
        for i in 0..entries {
            self.reapply(tape, i)?;
        }
        Ok(())
    }

    // Power is back: what was committed is applied again, and cleared.
    pub fn recover(self, tape: &mut Tape) -> Result<(), Act>
        ensures { Follows (recovered self.most_entries self.last) tape.old result tape.new }
    {
        let entries = self.committed(tape)?;
        if entries == 0 {
            return Ok(());
        }
        self.reapply_entries(tape, entries)?;
        clear(tape)
    }
}
