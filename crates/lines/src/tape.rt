// The answers that a stage has had so far, read one after another. Where there is no further one, the act that asks for it is handed out.
// The contract of a function over a tape says that it follows a program, run against the answers that are left.
ghost use Rattle.std.specs.Prelude.{◌≡◌};
ghost use Rattle.plain.specs.Run.{read, settle, shows, store};
ghost use Rattle.programs.specs.Prog.{ask, ret};
ghost use Rattle.lines.specs.Told.{Follows, FollowsAs, act_of, does, rest};
ghost use Rattle.lines.specs.Words.{answers, line_of};

use crate::act::Act;
use crate::line::Line;
use crate::row::Row;

// The words of the answers that are left.
#[derive(Debug, Drop)]
pub struct Tape<'a> {
    words: &'a [u64],
}

impl<'a> Tape<'a> {
    // The answers in these words, eight to a line; words that make no line are left out.
    pub fn new(words: &'a [u64]) -> Tape<'a>
        ensures { rest result ≡ answers words.now 0 }
    {
        Tape { words }
    }

    #[tactic(auto, using(crate::proofs::Tapes::answer_here, crate::proofs::Tapes::no_answer))]
    fn answer(&mut self, act: Act) -> Result<Line, Act>
        ensures { FollowsAs line_of (ask (act_of act) ret) self.old result self.new }
    {
        let Some((words, rest)) = self.words.split_first_chunk() else {
            return Err(act);
        };
        self.words = rest;
        Ok(Line { words: *words })
    }

    pub fn read(&mut self, k: u64) -> Result<Line, Act>
        ensures { FollowsAs line_of (ask (read k) ret) self.old result self.new }
    {
        self.answer(Act::Read(k))
    }

    // Any act whose answer says nothing.
    fn act(&mut self, act: Act) -> Result<(), Act>
        ensures { Follows (does (act_of act)) self.old result self.new }
    {
        self.answer(act)?;
        Ok(())
    }

    pub fn store(&mut self, k: u64, line: Line) -> Result<(), Act>
        ensures { Follows (does (store k (line_of line))) self.old result self.new }
    {
        self.act(Act::Store(k, line))
    }

    pub fn settle(&mut self, k: u64) -> Result<(), Act>
        ensures { Follows (does (settle k)) self.old result self.new }
    {
        self.act(Act::Settle(k))
    }

    pub fn show(&mut self, row: Row) -> Result<(), Act>
        ensures { Follows (does (shows row)) self.old result self.new }
    {
        self.act(Act::Show(row))
    }
}
