// How tightly operators bind, and the words of a formula that are neither names nor functions.
ghost use Rattle.std.specs.Prelude.{◌≤◌};
ghost use Rattle.typed.specs.Keywords.{all_keywords, keyword_word};

use spelling::kinds::{Operator, Worded};

// How tightly an operator binds: a number, since the next tighter one is reckoned from it.
pub fn level(operator: Operator) -> u8
    ensures { result ≤ 3 }
{
    match operator {
        Operator::Equal | Operator::Less | Operator::AtMost => 0,
        Operator::Joined => 1,
        Operator::Sum | Operator::Difference => 2,
        Operator::Product | Operator::Quotient => 3,
    }
}

// A word that is no name with no @ before it.
#[derive(Clone, Copy, Debug, PartialEq, Eq)]
pub enum Keyword {
    Truth(bool),
    // A place that is gone.
    Gone,
}

impl Worded for Keyword {
    ghost kinds = { all_keywords };

    fn all() -> &'static [Keyword] {
        &[Keyword::Truth(false), Keyword::Truth(true), Keyword::Gone]
    }

    ghost word = { keyword_word };

    fn word(self) -> &'static str {
        match self {
            Keyword::Truth(false) => "false",
            Keyword::Truth(true) => "true",
            Keyword::Gone => "gone",
        }
    }
}
