// A notation for bytes: `7` is one byte, `#7` a number of eight bytes, and `7*3` is three bytes.
use std::alloc::Global;
use std::test::Fail;

fn add(code: &mut Vec<u8>, word: &str) -> Result<(), Fail> {
    if let Some(number) = word.strip_prefix('#') {
        code.extend_from_slice(&number.parse::<u64>()?.to_be_bytes())?;
        return Ok(());
    }
    let (byte, many) = word.split_once('*').unwrap_or((word, "1"));
    let byte = byte.parse::<u8>()?;
    code.resize(code.len() + usize::from(many.parse::<u16>()?), byte)?;
    Ok(())
}

pub fn bytes(heap: Global, line: &str) -> Result<Vec<u8>, Fail> {
    let mut code = Vec::new(heap);
    for word in line.split_whitespace() {
        add(&mut code, word)?;
    }
    Ok(code)
}
