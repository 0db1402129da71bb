// A line of the device, as eight words. Its 64 bytes are those of the words, the highest byte of each first.
ghost use Rattle.std.specs.Prelude.{◌≡◌, ◌*◌, ◌≤◌, ◌++◌, length, take, drop};
ghost use Rattle.plain.specs.Read.{number};
ghost use Rattle.lines.specs.Words.{HoldsLine, line_of, number_line, words_of};

pub const LINE_BYTES: usize = 64;

#[derive(Clone, Copy, Debug, PartialEq, Eq)]
pub struct Line {
    pub words: [u64; 8],
}

// The words that these bytes make, eight to each, the highest first.
pub fn words_from<const N: usize>(bytes: &[u8]) -> [u64; N]
    requires { length bytes.now ≡ 8 * N }
    ensures { result ≡ words_of N bytes.now }
{
    // The loop stays: with `array::from_fn` over the chunks the proof did not close, and `iter_mut().zip` loses the elements.
    let (chunks, _) = bytes.as_chunks();
    let mut words = [0; N];
    for (i, eight) in chunks.iter().enumerate() {
        words[i] = u64::from_be_bytes(*eight);
    }
    words
}

impl Line {
    pub const BLANK: Line = Line { words: [0; 8] };

    // The line that holds a number in its first word, and nothing else: a name, since a number is not as such a line.
    pub fn with_number(n: u64) -> Line
        ensures { line_of result ≡ number_line n }
    {
        Line {
            words: [n, 0, 0, 0, 0, 0, 0, 0],
        }
    }

    // The number in the first word.
    pub fn number(&self) -> u64
        ensures { result ≡ number (take 8 (line_of self.now)) }
    {
        self.words[0]
    }

    // Puts the line's bytes into the first bytes of a row.
    pub fn write_to(&self, out: &mut [u8])
        requires { 64 ≤ length out.old }
        ensures { out.new ≡ line_of self.now ++ drop 64 out.old }
    {
        out[..LINE_BYTES].copy_from_slice(self.words.map(u64::to_be_bytes).as_flattened());
    }
}

impl From<&[u8]> for Line {
    // What is not 64 bytes long is taken for a blank line.
    ghost from_gives = { λ bytes line. HoldsLine line bytes.now };

    fn from(bytes: &[u8]) -> Line {
        if bytes.len() != LINE_BYTES {
            return Line::BLANK;
        }
        Line {
            words: words_from(bytes),
        }
    }
}
