// Programs over lines and the machine that replays them, as mathematics. There is no code here to run: each function's contract is a theorem.
// The theorems are generic: a machine is given as the ghost member of a trait, with the proofs of what is owed of it.
#![tactic(auto)]

ghost use Rattle.programs.specs.Beside.{Bundle, RightAlways};
ghost use Rattle.programs.specs.Fates.{Derivation, EndsSo, StopsSo};

// A machine, with its laws, a crash predicate and what holds at the end.
pub trait Derived {
    ghost derivation: { Derivation };
}

// A machine beside plain states, with all that is owed of it.
pub trait Beside {
    ghost bundle: { Bundle };
}

// A derivation that a command, or power, goes well gives a number of acts after which it has ended as the derivation says.
pub fn ends_stand<D: Derived>() -> u8
    ensures { EndsSo D.derivation }
{
    0
}

// After any number of acts it has ended so, or the crash predicate holds and what was shown is a beginning of what would be shown.
pub fn stops_stand<D: Derived>() -> u8
    ensures { StopsSo D.derivation }
{
    0
}

// From three obligations, on stops, on power and on commands, the machine is right beside the plain states, whatever comes and whatever stops.
pub fn right_stands<B: Beside>() -> u8
    ensures { RightAlways B.bundle }
{
    0
}
