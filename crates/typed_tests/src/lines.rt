// A table has a line for each case: what is typed, an arrow, and what is expected.
use printed::{formula_text, value_text};
use std::alloc::Global;
use std::process::Abort;
use std::test::Fail;
use typed::reading::{Answer, Line, read_line};

// Adds a word of the notation for bytes: `7` is one byte, `#7` a number of eight bytes. formulas_tests has a like one, which stays its own:
// crates share code only as a library, whose function would need a contract of what such words mean, which is longer than this.
fn add(code: &mut Vec<u8>, word: &str) -> Result<(), Fail> {
    if let Some(number) = word.strip_prefix('#') {
        code.extend_from_slice(&number.parse::<u64>()?.to_be_bytes())?;
        return Ok(());
    }
    code.push(word.parse::<u8>()?)?;
    Ok(())
}

fn bytes(heap: Global, words: &str) -> Result<Vec<u8>, Fail> {
    let mut code = Vec::new(heap);
    for word in words.split_whitespace() {
        add(&mut code, word)?;
    }
    Ok(code)
}

// Holds each case of a table: what stands before its arrow, and what behind it, if it has one.
fn each_case<F: FnMut(&str, &str) -> Result<(), Fail>>(table: &str, mut hold: F) -> Result<(), Fail>
    requires { F.IsAlwaysCallable hold }
{
    for case in table.lines() {
        let (typed, expected) = case.split_once(" => ").unwrap_or((case, ""));
        hold(typed, expected)?;
    }
    Ok(())
}

fn command(heap: Global, line: &str) -> Result<Vec<u8>, Fail> {
    match read_line(heap, line.as_bytes()) {
        Ok(Line::Command { bytes, answer: _ }) => Ok(bytes),
        _ => Err(Fail::new(format_args!("no command: {line}"))),
    }
}

fn hold_bytes(rt: &impl Abort, heap: Global, line: &str, words: &str) -> Result<(), Fail> {
    let found = command(heap, line)?;
    let expected = bytes(heap, words)?;
    assert!(rt; found.as_slice() == expected.as_slice(), "{line}");
    Ok(())
}

fn hold_refusal(rt: &impl Abort, heap: Global, line: &str, words: &str) -> Result<(), Fail> {
    match read_line(heap, line.as_bytes()) {
        Ok(_) => Err(Fail::new(format_args!("it was read: {line}"))),
        Err(e) => {
            let found = e.to_string(heap)?;
            assert_eq!(rt; found.as_str(), words, "{line}");
            Ok(())
        }
    }
}

const COMMANDS: &str = "\
set A1 -3.5 => 1 0 #0 0 1 1 #3499999
set IV65536 true => 1 255 #65535 0 3 1
  wipe c2 => 2 2 #1 2 #1
wipe C2:A1 => 2 0 #0 2 #1
show AA10 => 3 26 #9
rows A1:P256 => 4 0 #0 15 #255
written b7 => 5 1 #6
name price_2 $A1 => 6 #7 112 114 105 99 101 95 50 1 0 #0 1 0
name @A1 B2:A$1 => 6 #2 65 49 2 1 #1 0 0 0 #0 0 1
unname x => 7 #1 120
insert rows 3 2 => 8 1 #2 #2
insert columns C 256 => 8 0 #2 #256
remove rows 65536 65536 => 9 1 #65535 #65536
remove columns iv 1 => 9 0 #255 #1
copy A1:B2 D5 => 10 0 #0 1 #1 3 #4";

// Behind `set A1`, and what is spelled behind the place.
const FORMULAS: &str = "\
12 => 0 1 0 #12000000
0.000001 => 0 1 0 #1
-0 => 0 1 0 #0
4611686018427.387903 => 0 1 0 #4611686018427387903
-4611686018427.387903 => 0 1 1 #4611686018427387902
'it''s \\\\ \\x00\\xfF' => 0 2 #9 105 116 39 115 32 92 32 0 255
'' => 0 2 #0
$C$7 => 1 2 #6 1 1
a1 : B$2 => 2 0 #0 0 0 1 #1 0 1
1+2*3 => 6 0 0 1 0 #1000000 6 2 0 1 0 #2000000 0 1 0 #3000000
1-2-3 => 6 1 6 1 0 1 0 #1000000 0 1 0 #2000000 0 1 0 #3000000
(1-2)*-A1 => 6 2 6 1 0 1 0 #1000000 0 1 0 #2000000 5 1 0 #0 0 0
1*(2-A1)/3 => 6 3 6 2 0 1 0 #1000000 6 1 0 1 0 #2000000 1 0 #0 0 0 0 1 0 #3000000
gone & false < true = gone <= gone => 6 7 6 5 6 6 6 4 4 0 3 0 0 3 1 4 4
-(3) => 5 0 1 0 #3000000
--3 => 5 0 1 1 #2999999
1 -3 => 6 1 0 1 0 #1000000 0 1 0 #3000000
1--3 => 6 1 0 1 0 #1000000 0 1 1 #2999999
sum() => 7 0 0
if (A1<2, gone, not(true)) => 7 4 3 6 6 1 0 #0 0 0 0 1 0 #2000000 4 7 9 1 0 3 1
sum + @true => 6 0 3 #3 115 117 109 3 #4 116 114 117 101
tax2024 => 3 #7 116 97 120 50 48 50 52";

// A formula of many kinds, and then some as deep as they may be, in the ways that take most brackets when they are printed.
const DEEP: &str = "\
if(A1 < 2, 'few' & 'C:\\\\', lookup(price, $A$1:C2, -3 * count(A1:C2)) / -(3) - gone)
1+1+1+1+1+1+1+1+1+1+1+1+1+1+1+1+1+1+1+1+1+1+1+1+1+1+1+1+1+1+1+1
-------------------------------A1
1-(1-(1-(1-(1-(1-(1-(1-(1-(1-(1-(1-(1-(1-(1-(1-(1-(1-(1-(1-(1-(1-(1-(1-(1-(1-(1-(1-(1-(1-(1-1))))))))))))))))))))))))))))))
1- -(1- -(1- -(1- -(1- -(1- -(1- -(1- -(1- -(1- -(1- -(1- -(1- -(1- -(1- -A1))))))))))))))
sum(sum(sum(sum(sum(sum(sum(sum(sum(sum(sum(sum(sum(sum(sum(sum(sum(sum(sum(sum(sum(sum(sum(sum(sum(sum(sum(sum(sum(sum(sum(1)))))))))))))))))))))))))))))))";

const REFUSALS: &str = "\
sett A1 5 => expected a command such as set, show or help at column 1
help me => expected the end of the line at column 6
show => expected a place such as B7, from A1 to IV65536 at column 5
show A0 => expected a place such as B7, from A1 to IV65536 at column 6
show IW1 => expected a place such as B7, from A1 to IV65536 at column 6
wipe A1:A65537 => expected a place such as B7, from A1 to IV65536 at column 9
show $A1 => expected a place such as B7, from A1 to IV65536 at column 6
show A1 B2 => expected the end of the line at column 9
set A1 => expected a formula such as 12, 'cod', B7 or sum(A1:C2) at column 7
set A1 2 + => expected a formula such as 12, 'cod', B7 or sum(A1:C2) at column 11
set A1 1 2 => expected an operator or the end of the line at column 10
set A1 (1 => expected an operator or a closing bracket at column 10
set A1 sum(1;2) => expected an operator, a comma or a closing bracket at column 13
set A1 zz9 => expected a place such as B7, from A1 to IV65536 at column 8
set A1 1.2345678 => expected one to six decimals at column 10
set A1 4611686018427.387904 => expected a number of at most 4611686018427.387903 at column 8
set A1 'cod => expected a closing quote at column 12
set A1 'a\\q' => expected \\\\, or \\x and two digits of 0 to 9 and A to F at column 10
name A1 B2 => expected a name such as price, of at most 64 letters, digits and _ at column 6
insert lines 3 2 => expected rows or columns at column 8
insert rows 0 1 => expected a row from 1 to 65536 at column 13
insert columns 3 1 => expected a column from A to IV at column 16
insert rows 3 65537 => expected how many of them, from 1 to all that there are at column 15
rows A1:Q256 => expected no more than 4096 places at column 6
set A1 sum(1,1,1,1,1,1,1,1,1,1,1,1,1,1,1,1,1) => expected no more than 16 values at column 44
set A1 sum(sum(A1,A1,A1,A1,A1,A1,A1,A1,A1,A1,A1,A1,A1,A1,A1,A1),sum(A1,A1,A1,A1,A1,A1,A1,A1,A1,A1,A1,A1,A1,A1,A1,A1),sum(A1,A1,A1,A1,A1,A1,A1,A1,A1,A1,A1,A1,A1,A1,A1,A1),sum(A1,A1,A1,A1,A1,A1,A1,A1,A1,A1,A1,A1,A1,A1,A1,A1),sum(A1,A1,A1,A1,A1,A1,A1,A1,A1,A1,A1,A1,A1,A1,A1,A1),sum(A1,A1,A1,A1,A1,A1,A1,A1,A1,A1,A1,A1,A1,A1,A1,A1)) => expected a shorter formula, of at most 1024 bytes at column 292
set A1 1+1+1+1+1+1+1+1+1+1+1+1+1+1+1+1+1+1+1+1+1+1+1+1+1+1+1+1+1+1+1+1+1 => expected a formula less deep, of at most 32 levels at column 73
set A1 ((((((((((((((((((((((((((((((((((((((((((((((((((((((((((((((((((((((((((((((((1 => expected a formula less deep, of at most 32 levels at column 88
set A1 --------------------------------A1 => expected a formula less deep, of at most 32 levels at column 8";

#[test]
fn commands_become_bytes(rt: HostRuntime) -> Result<(), Fail> {
    each_case(
        COMMANDS,
        |line, words| hold_bytes(&rt, rt.alloc(), line, words),
    )
}

#[test]
fn formulas_become_bytes(rt: HostRuntime) -> Result<(), Fail> {
    let heap = rt.alloc();
    each_case(FORMULAS, |formula, words| -> Result<(), Fail> {
        let line = format!(in heap; "set A1 {formula}")?;
        let words = format!(in heap; "1 0 #0 {words}")?;
        hold_bytes(&rt, heap, line.as_str(), words.as_str())
    })
}

// What the formula of a command is printed as is read as the same command, with whatever was typed.
fn hold_again(rt: &impl Abort, heap: Global, formula: &str) -> Result<(), Fail> {
    let line = format!(in heap; "set A1 {formula}")?;
    let first = command(heap, line.as_str())?;
    let (_, spelled) = first.as_slice().split_at_checked(10).unwrap_or((b"", b""));
    let printed = formula_text(heap, spelled)?;
    let line = format!(in heap; "set A1 {printed}")?;
    let again = command(heap, line.as_str())?;
    assert!(rt; first.as_slice() == again.as_slice(), "{formula}");
    Ok(())
}

#[test]
fn printed_formulas_are_read_again(rt: HostRuntime) -> Result<(), Fail> {
    each_case(FORMULAS, |formula, _| hold_again(&rt, rt.alloc(), formula))?;
    each_case(DEEP, |formula, _| hold_again(&rt, rt.alloc(), formula))
}

const VALUES: &str = "\
0 => nothing
1 0 #38250000 => 38.25
1 1 #0 => -0.000001
1 0 #4611686018427387903 => 4611686018427.387903
1 1 #4611686018427387902 => -4611686018427.387903
2 #5 99 39 92 32 200 => 'c''\\\\ \\xc8'
3 1 => true
4 5 => wrong 5
1 0 1 => ? 01 00 01";

#[test]
fn values_are_printed(rt: HostRuntime) -> Result<(), Fail> {
    let heap = rt.alloc();
    each_case(VALUES, |words, text| -> Result<(), Fail> {
        let row = bytes(heap, words)?;
        let found = value_text(heap, row.as_slice())?;
        assert_eq!(&rt; found.as_str(), text, "{words}");
        Ok(())
    })
}

#[test]
fn refusals_say_where(rt: HostRuntime) -> Result<(), Fail> {
    each_case(
        REFUSALS,
        |line, words| hold_refusal(&rt, rt.alloc(), line, words),
    )
}

#[test]
fn answers_are_known(rt: HostRuntime) {
    let heap = rt.alloc();
    let answered = |line: &[u8]| match read_line(heap, line) {
        Ok(Line::Command { bytes: _, answer }) => Some(answer),
        _ => None,
    };
    assert_eq!(rt; answered(b"rows B1:D9"), Some(Answer::Values { wide: 3 }));
    assert_eq!(rt; answered(b"written B1"), Some(Answer::Formula));
    assert_eq!(rt; answered(b"wipe B1"), Some(Answer::Done));
    assert_eq!(rt; read_line(heap, b" # show B1"), Ok(Line::Nothing));
    assert_eq!(rt; read_line(heap, b" quit "), Ok(Line::Quit));
}
