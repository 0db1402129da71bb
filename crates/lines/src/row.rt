// A row of bytes that is to be shown, with room for the longest value or formula.
// It stays fixed memory of its own: the engine has no heap, and the kit's `ArrayVec` is not `Copy`, as the act that shows a row is.
ghost use Rattle.std.specs.Prelude.{◌≡◌, ◌≤◌, ◌++◌, length, take, drop};

use std::marker::Model;

pub const LONGEST_ROW: usize = 1040;

// The bytes behind the row are 0, so that equal rows are equal in their memory too.
#[derive(Clone, Copy, Debug, PartialEq, Eq)]
pub struct Row {
    bytes: [u8; LONGEST_ROW],
    len: usize,
}

impl Model for Row {
    ghost use Rattle.std.proofs.Common.{ℕ, ◌-◌, ◌++◌, List, length, take, replicate, ap, sym, ◌∙◌, arith};
    ghost use Rattle.std.proofs.lemmas.List.{length-take-le, take-append-drop};
    ghost use Rattle.lines.specs.Row.{IsFilledUp, filled_up};

    ghost Value = { List ℕ };

    ghost view = { λ r. take r.len r.bytes };

    ghost invariant = { λ r. IsFilledUp r.bytes r.len };

    ghost inverse = { λ row. record { bytes = filled_up row; len = length row } };

    ghost inverse_ok = { λ r h i.
        let l = length-take-le r.len r.bytes (omega (arith, h.size, h.within)) in
        let zs = ap (λ n. replicate (1040 - n) 0) l ∙ sym h.behind in
        record { bytes = (ap (λ ys. take r.len r.bytes ++ ys) zs ∙ take-append-drop r.len r.bytes) i; len = l i } };
}

impl From<&[u8]> for Row {
    // The first of these bytes, as many as there is room for.
    ghost from_gives = { λ bytes row. row ≡ take 1040 bytes.now };

    fn from(bytes: &[u8]) -> Row {
        let len = bytes.len().min(LONGEST_ROW);
        let mut row = [0; LONGEST_ROW];
        row[..len].copy_from_slice(&bytes[..len]);
        Row { bytes: row, len }
    }
}

impl Row {
    // Puts the row into the first bytes of a lent one, and says how many they are.
    pub fn write_to(&self, out: &mut [u8]) -> u64
        requires { 1040 ≤ length out.old }
        ensures long { result ≡ length self.now }
        ensures row { out.new ≡ self.now ++ drop (length self.now) out.old }
    {
        let n = self.len;
        out[..n].copy_from_slice(&self.bytes[..n]);
        n as u64
    }
}
