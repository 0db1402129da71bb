// Bytes, flags, numbers of eight bytes, and texts with their length before them.
ghost use Rattle.plain.specs.Read.{one, read_counted, read_eight, read_flag};
ghost use Rattle.spelling.specs.Meaning.{Reads};

pub fn one(bytes: &[u8]) -> Option<(u8, &[u8])>
    ensures { Reads (λ b. b) (one bytes.now) result }
{
    let (first, rest) = bytes.split_first()?;
    Some((*first, rest))
}

pub fn flag(bytes: &[u8]) -> Option<(bool, &[u8])>
    ensures { Reads (λ b. b) (read_flag bytes.now) result }
{
    let (byte, rest) = one(bytes)?;
    match byte {
        0 => Some((false, rest)),
        1 => Some((true, rest)),
        _ => None,
    }
}

// A number of eight bytes, the highest first.
pub fn number(bytes: &[u8]) -> Option<(u64, &[u8])>
    ensures { Reads (λ n. n) (read_eight bytes.now) result }
{
    let (head, rest) = bytes.split_first_chunk::<8>()?;
    Some((u64::from_be_bytes(*head), rest))
}

// Bytes with their count before them, at most so many.
pub fn counted(bytes: &[u8], most: u64) -> Option<(&[u8], &[u8])>
    ensures { Reads (λ b. b.now) (read_counted most bytes.now) result }
{
    let (n, rest) = number(bytes)?;
    if n > most {
        return None;
    }
    rest.split_at_checked(n as usize)
}
