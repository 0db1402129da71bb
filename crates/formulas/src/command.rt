// Commands: a byte that says which, and its parts. Bytes that are no command, or one that is not of the core, are refused.
ghost use Rattle.std.specs.Prelude.{◌≡◌, nat_le};
ghost use Rattle.formulas.specs.Told.{PassesOver, Tells, is_rows, number_of, told};
ghost use Rattle.plain.specs.Commands.{places_of};
ghost use Rattle.plain.specs.Read.{a_stretch, command_tag, one, read_stretch, read_target, stretch_of, then};
ghost use Rattle.spelling.specs.Meaning.{box_of};

use crate::formula::{area, formula};
use spelling::bytes::{number, one};
use spelling::kinds::{Axis, CommandKind, FormulaKind};
use spelling::limits::{DEEPEST_FORMULA, LONGEST_FORMULA};
use spelling::name::name;
use spelling::place::{Area, Place, Reference};

const MOST_PLACES: u32 = 4096;

// A command of the core.
#[derive(Clone, Copy, Debug, PartialEq, Eq)]
pub enum Command {
    // The formula is what is behind the first ten bytes.
    Set(Place),
    Wipe(Area),
    Show(Place),
    Rows(Area),
    Written(Place),
}

#[derive(Clone, Copy, Debug, PartialEq, Eq)]
pub enum Refusal {
    // The bytes are no command.
    Malformed,
    // A command that is not known yet, because it is not of the core.
    Unknown,
}

// What bytes command, once they are known to be a command: refused if it is not of the core.
type Told = Result<Command, Refusal>;

// The number that stands for it in an answer.
impl From<Refusal> for u64 {
    ghost from_gives = { λ refusal number. number ≡ number_of refusal };

    fn from(refusal: Refusal) -> u64 {
        match refusal {
            Refusal::Malformed => 1,
            Refusal::Unknown => 2,
        }
    }
}

fn is_few(area: Area) -> bool
    ensures { result ≡ nat_le (places_of (box_of area)) 4096 }
{
    u32::from(area.columns()) * area.rows() <= MOST_PLACES
}

// What a name may stand for: a cell or an area, spelled as in a formula.
fn target(bytes: &[u8]) -> Option<&[u8]>
    ensures { PassesOver (read_target bytes.now) result }
{
    let (tag, rest) = one(bytes)?;
    match FormulaKind::try_from(tag).ok()? {
        FormulaKind::Cell => Reference::read(rest).map(|(_cell, rest)| rest),
        FormulaKind::Area => area(rest).map(|(_ends, rest)| rest),
        _ => None,
    }
}

fn is_stretch(axis: Axis, at: u64, many: u64) -> bool
    ensures { result ≡ a_stretch (stretch_of (is_rows axis) at many) }
{
    at < axis.lines() && (1..=axis.lines()).contains(&many)
}

// Rows or columns that are put in or taken out: which, where and how many.
fn stretch(bytes: &[u8]) -> Option<&[u8]>
    ensures { PassesOver (read_stretch bytes.now) result }
{
    let (tag, rest) = one(bytes)?;
    let axis = Axis::try_from(tag).ok()?;
    let (at, rest) = number(rest)?;
    let (many, rest) = number(rest)?;
    is_stretch(axis, at, many).then_some(rest)
}

fn set(bytes: &[u8]) -> Option<(Told, &[u8])>
    ensures { Tells (command_tag 1 bytes.now) result }
{
    let (place, rest) = Place::read(bytes)?;
    if rest.len() > LONGEST_FORMULA {
        return None;
    }
    let (core, rest) = formula(rest, DEEPEST_FORMULA)?;
    let command = core.then_some(Command::Set(place)).ok_or(Refusal::Unknown);
    Some((command, rest))
}

fn rows(bytes: &[u8]) -> Option<(Told, &[u8])>
    ensures { Tells (command_tag 4 bytes.now) result }
{
    let (area, rest) = Area::read(bytes)?;
    is_few(area).then_some((Ok(Command::Rows(area)), rest))
}

fn named(bytes: &[u8]) -> Option<(Told, &[u8])>
    ensures { Tells (command_tag 6 bytes.now) result }
{
    let (_text, rest) = name(bytes)?;
    let rest = target(rest)?;
    Some((Err(Refusal::Unknown), rest))
}

fn copied(bytes: &[u8]) -> Option<(Told, &[u8])>
    ensures { Tells (command_tag 10 bytes.now) result }
{
    let (_from, rest) = Area::read(bytes)?;
    let (_to, rest) = Place::read(rest)?;
    Some((Err(Refusal::Unknown), rest))
}

// The command at the front of bytes, and what is behind it.
fn front(bytes: &[u8]) -> Option<(Told, &[u8])>
    ensures { Tells (then (one bytes.now) command_tag) result }
{
    let (tag, rest) = one(bytes)?;
    match CommandKind::try_from(tag).ok()? {
        CommandKind::Set => set(rest),
        CommandKind::Wipe => Area::read(rest).map(|(area, rest)| (Ok(Command::Wipe(area)), rest)),
        CommandKind::Show => Place::read(rest).map(|(place, rest)| (
            Ok(Command::Show(place)),
            rest,
        )),
        CommandKind::Rows => rows(rest),
        CommandKind::Written => Place::read(rest).map(|(place, rest)| (
            Ok(Command::Written(place)),
            rest,
        )),
        CommandKind::Name => named(rest),
        CommandKind::Unname => name(rest).map(|(_text, rest)| (Err(Refusal::Unknown), rest)),
        CommandKind::Insert | CommandKind::Remove => stretch(rest).map(|rest| (
            Err(Refusal::Unknown),
            rest,
        )),
        CommandKind::Copy => copied(rest),
    }
}

// What bytes command: refused if they are no command, or one that is not of the core.
pub fn read_command(bytes: &[u8]) -> Result<Command, Refusal>
    ensures { result ≡ told bytes.now }
{
    let (command, rest) = front(bytes).ok_or(Refusal::Malformed)?;
    if !rest.is_empty() {
        return Err(Refusal::Malformed);
    }
    command
}
