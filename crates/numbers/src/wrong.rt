// What can be wrong with a value.
ghost use Rattle.std.specs.Prelude.{◌≡◌};
ghost use Rattle.numbers.specs.Meaning.{wrong_number};

#[derive(Clone, Copy, Debug, PartialEq, Eq)]
pub enum Wrong {
    // Not of the kind that is needed.
    Kind,
    // A quotient by 0.
    Divisor,
    // A number too large, a text too long.
    Size,
    // No such name.
    Name,
    // The cell refers, at any depth, to itself.
    Circle,
    // A place that is gone.
    Gone,
    // Not found.
    Missing,
    // Not as many values as are needed, or areas not alike in size.
    Count,
}

// The number that stands for it in a reply, and that the plain sheet has for it.
impl From<Wrong> for u8 {
    ghost from_gives = { λ wrong number. number ≡ wrong_number wrong };

    fn from(wrong: Wrong) -> u8 {
        match wrong {
            Wrong::Kind => 1,
            Wrong::Divisor => 2,
            Wrong::Size => 3,
            Wrong::Name => 4,
            Wrong::Circle => 5,
            Wrong::Gone => 6,
            Wrong::Missing => 7,
            Wrong::Count => 8,
        }
    }
}
