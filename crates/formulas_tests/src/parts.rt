// The parts that are not told of a command: numbers of eight bytes, references and constants.
use spelling::bytes::number;
use spelling::constant::Constant;
use spelling::place::{Place, Reference};
use std::test::Fail;

#[test]
fn highest_byte_first(rt: HostRuntime) -> Result<(), Fail> {
    assert!(rt;
        matches!(
            number(&[1, 2, 3, 4, 5, 6, 7, 8, 77]),
            Some((72623859790382856, [77]))
        )
    );
    Ok(())
}

#[test]
fn parts_of_references(rt: HostRuntime) -> Result<(), Fail> {
    let (found, rest) = Reference::read(&[2, 0, 0, 0, 0, 0, 0, 1, 3, 1, 0, 77]).ok_or_else(
        || Fail::new("refused"),
    )?;
    let place = Place { col: 2, row: 259 };
    let expected = Reference {
        place,
        fix_col: true,
        fix_row: false,
    };
    assert_eq!(rt; found, expected);
    assert_eq!(rt; rest.len(), 1);
    Ok(())
}

#[test]
fn parts_of_numbers(rt: HostRuntime) -> Result<(), Fail> {
    let Some((Constant::Number(found), rest)) = Constant::read(&[1, 1, 0, 0, 0, 0, 0, 0, 1, 3, 77])
    else {
        return Err(Fail::new("refused"));
    };
    assert_eq!(rt; found.sign(), (true, 259));
    assert_eq!(rt; rest.len(), 1);
    Ok(())
}

#[test]
fn parts_of_texts(rt: HostRuntime) -> Result<(), Fail> {
    let Some((Constant::Text(text), rest)) = Constant::read(&[
        2, 0, 0, 0, 0, 0, 0, 0, 2, 104, 105, 77,
    ]) else {
        return Err(Fail::new("refused"));
    };
    assert_eq!(rt; text, b"hi".as_slice());
    assert_eq!(rt; rest.len(), 1);
    Ok(())
}
