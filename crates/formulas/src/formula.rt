// Formulas: a prefix code of constants, references, operators and functions.
ghost use Rattle.formulas.specs.Told.{Passes, PassesAll, area_between};
ghost use Rattle.plain.specs.Read.{read_term, so_many, target_tag, term_tag};
ghost use Rattle.spelling.specs.Meaning.{Reads};

use spelling::bytes::one;
use spelling::constant::Constant;
use spelling::kinds::{FormulaKind, Function, Operator};
use spelling::limits::MOST_VALUES;
use spelling::name::name;
use spelling::place::Reference;

// Passes over a formula that is at most so deep: whether it is of the core, and what is behind it.
#[cycle(formula_formulas_function_operator)]
pub fn formula(bytes: &[u8], depth: u8) -> Option<(bool, &[u8])>
    ensures { Passes (read_term depth bytes.now) result }
{
    let depth = depth.checked_sub(1)?;
    let (tag, rest) = one(bytes)?;
    match FormulaKind::try_from(tag).ok()? {
        FormulaKind::Constant => Constant::read(rest).map(|(_value, rest)| (true, rest)),
        FormulaKind::Cell => Reference::read(rest).map(|(_cell, rest)| (true, rest)),
        FormulaKind::Area => area(rest).map(|(_ends, rest)| (false, rest)),
        FormulaKind::Named => name(rest).map(|(_text, rest)| (false, rest)),
        FormulaKind::Gone => Some((false, rest)),
        FormulaKind::Opposite => formula(rest, depth),
        FormulaKind::Operator => operator(rest, depth),
        FormulaKind::Function => function(rest, depth),
    }
}

// The two ends of an area, which are in any order.
pub(crate) fn area(bytes: &[u8]) -> Option<((Reference, Reference), &[u8])>
    ensures { Reads area_between (target_tag 2 bytes.now) result }
{
    let (first, rest) = Reference::read(bytes)?;
    let (last, rest) = Reference::read(rest)?;
    Some(((first, last), rest))
}

#[cycle(formula_formulas_function_operator)]
fn operator(bytes: &[u8], depth: u8) -> Option<(bool, &[u8])>
    ensures { Passes (term_tag (read_term depth) 6 bytes.now) result }
{
    let (which, rest) = one(bytes)?;
    let _operator = Operator::try_from(which).ok()?;
    let (a, rest) = formula(rest, depth)?;
    let (b, rest) = formula(rest, depth)?;
    Some((a & b, rest))
}

#[cycle(formula_formulas_function_operator)]
fn function(bytes: &[u8], depth: u8) -> Option<(bool, &[u8])>
    ensures { Passes (term_tag (read_term depth) 7 bytes.now) result }
{
    let (which, rest) = one(bytes)?;
    let which = Function::try_from(which).ok()?;
    let (n, rest) = one(rest)?;
    if n > MOST_VALUES {
        return None;
    }
    let (all, rest) = formulas(rest, n, depth)?;
    Some((matches!(which, Function::If) & all, rest))
}

#[cycle(formula_formulas_function_operator)]
fn formulas(bytes: &[u8], n: u8, depth: u8) -> Option<(bool, &[u8])>
    ensures { PassesAll (so_many n (read_term depth) bytes.now) result }
{
    let mut all = true;
    let mut rest = bytes;
    for _ in 0..n {
        let (core, behind) = formula(rest, depth)?;
        all &= core;
        rest = behind;
    }
    Some((all, rest))
}
