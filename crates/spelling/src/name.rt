// Names: 1 to 64 letters, digits and underscores.
ghost use Rattle.std.specs.Prelude.{◌≡◌, ◌↔◌, true, All, IsTrue};
ghost use Rattle.plain.specs.Commands.{a_name};
ghost use Rattle.plain.specs.Read.{read_name};
ghost use Rattle.spelling.specs.Meaning.{Reads, name_byte};

use crate::bytes::counted;
use crate::limits::LONGEST_NAME;

pub fn is_name_byte(b: u8) -> bool
    ensures { result ≡ name_byte b }
{
    b.is_ascii_alphanumeric() || b == b'_'
}

fn has_name_bytes(text: &[u8]) -> bool
    ensures { IsTrue result ↔ All (λ b. name_byte b ≡ true) text.now }
{
    text.iter().all(|b| is_name_byte(*b))
}

pub fn is_name(text: &[u8]) -> bool
    ensures { result ≡ a_name text.now }
{
    !text.is_empty() && text.len() <= LONGEST_NAME && has_name_bytes(text)
}

pub fn name(bytes: &[u8]) -> Option<(&[u8], &[u8])>
    ensures { Reads (λ b. b.now) (read_name bytes.now) result }
{
    let (text, rest) = counted(bytes, LONGEST_NAME as u64)?;
    is_name(text).then_some((text, rest))
}
