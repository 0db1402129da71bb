// The plain sheet and its laws. There is no code here to run: each function's contract is a theorem about the definitions in specs/,
// and the crate is proved only with the theorem's proof, which stands in proofs/.
#![tactic(auto)]

ghost use Rattle.plain.specs.Example.{WorkedRight};
ghost use Rattle.plain.specs.Laws.{BoxCopiedOn, ChangesLocal, CopiedOn, ReachesRight, ShownFixed, WorthLocal};
ghost use Rattle.plain.specs.Promise.{CirclesWrong, CopiedSame, InAndOut, MovedWorth, NumbersRight, OthersSame, RoundsEnough, SettledStays, SpelledOnce, ValuesOrdered};
ghost use Rattle.plain.specs.Read.{Reads, ToldApart};

// No two commands are spelled alike.
pub fn spelling_stands() -> u8
    ensures { SpelledOnce }
{
    0
}

// The reader on lists reads exactly what is spelled; so of any bytes it can be told whether they are a command.
pub fn reading_stands() -> u8
    ensures reads { Reads }
    ensures apart { ToldApart }
{
    0
}

// What a cell is worth does not depend on how far one goes beyond as many rounds as there are cells.
pub fn rounds_stand() -> u8
    ensures { RoundsEnough }
{
    0
}

// Setting a cell changes nothing that does not refer to it, before or after.
pub fn others_stand() -> u8
    ensures { OthersSame }
{
    0
}

// A cell in a circle is wrong, 5.
pub fn circles_stand() -> u8
    ensures { CirclesWrong }
{
    0
}

// Rows or columns put in and taken out again leave everything as it was, if nothing left the sheet.
pub fn inserts_stand() -> u8
    ensures { InAndOut }
{
    0
}

// Inserting moves what cells are worth along with them, if they do not ask for places in areas.
pub fn moves_stand() -> u8
    ensures { MovedWorth }
{
    0
}

// Copying a formula onto itself changes nothing.
pub fn copies_stand() -> u8
    ensures { CopiedSame }
{
    0
}

// Numbers are added in either order and grouped either way, and what is taken away is added again; products are the same either way round.
pub fn numbers_stand() -> u8
    ensures { NumbersRight }
{
    0
}

// All values but what is wrong stand in one order.
pub fn order_stands() -> u8
    ensures { ValuesOrdered }
{
    0
}

// What was settled stays, whatever a power failure leaves of stores to other lines.
pub fn settled_stands() -> u8
    ensures { SettledStays }
{
    0
}

// `reaches` is the transitive closure of references.
pub fn reaches_stand() -> u8
    ensures { ReachesRight }
{
    0
}

// What a formula is worth depends only on what it refers to.
pub fn worth_stands() -> u8
    ensures { WorthLocal }
{
    0
}

// What is shown is the one fixed point: each place has what its cell is worth by what is shown, and wrong, 5, in a circle.
pub fn shown_stands() -> u8
    ensures { ShownFixed }
{
    0
}

// Changing any set of places changes nothing that refers to none of them, before or after.
pub fn changes_stand() -> u8
    ensures { ChangesLocal }
{
    0
}

// Copying a formula on from its copy gives what copying it that far at once does, if nothing is gone on the way.
pub fn copies_go_on() -> u8
    ensures { CopiedOn }
{
    0
}

// Copying a box on from its copy leaves in the last place what copying it that far at once does, if nothing is gone on the way.
pub fn boxes_go_on() -> u8
    ensures { BoxCopiedOn }
{
    0
}

// A sheet worked through, command by command: what stands where, and what there is to keep at the end.
pub fn example_stands() -> u8
    ensures { WorkedRight }
{
    0
}
