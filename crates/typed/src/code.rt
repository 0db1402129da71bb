// The bytes of a command, as they are put together.
ghost use Rattle.std.specs.Prelude.{◌≡◌, ◌≤◌};
ghost use Rattle.typed.specs.Sizes.{size, Grows};

use numbers::millionths::Millionths;
use spelling::kinds::{ConstantKind, FormulaKind};
use spelling::place::{Place, Reference};
use std::alloc::{AllocError, Global};

// Want of memory is noted where it comes, and told when the bytes are asked for: so what is wrong with a line is told whatever memory there is.
// What goes by one call of `put`, `put_all` or `put_before` is there as a whole or not at all.
#[derive(Debug, Drop)]
pub struct Code {
    bytes: Vec<u8>,
    // Whether something was not put, for want of memory.
    lost: bool,
}

// `Grows` stands in each contract here and of `Reader`: no type can tie what is there after a call to what was there before.
impl Code {
    pub fn new(heap: Global) -> Code {
        Code {
            bytes: Vec::new(heap),
            lost: false,
        }
    }

    pub fn len(&self) -> usize
        ensures { result ≡ size self.now }
    {
        self.bytes.len()
    }

    pub fn put(&mut self, byte: u8)
        ensures { Grows self.old self.new }
    {
        if self.bytes.push(byte).is_err() {
            self.lost = true;
        }
    }

    pub fn put_all(&mut self, bytes: &[u8])
        ensures { Grows self.old self.new }
    {
        if self.bytes.extend_from_slice(bytes).is_err() {
            self.lost = true;
        }
    }

    // Puts a byte before what stands from there on.
    pub fn put_before(&mut self, at: usize, byte: u8)
        requires { at ≤ size self.old }
        ensures { Grows self.old self.new }
    {
        if self.bytes.insert(at, byte).is_err() {
            self.lost = true;
        }
    }

    // What a constant of this kind begins with.
    pub fn put_constant(&mut self, kind: ConstantKind)
        ensures { Grows self.old self.new }
    {
        self.put_all(&[FormulaKind::Constant as u8, kind as u8]);
    }

    // Eight bytes, the highest first.
    pub fn put_eight(&mut self, n: u64)
        ensures { Grows self.old self.new }
    {
        self.put_all(&n.to_be_bytes());
    }

    pub fn put_number(&mut self, number: Millionths)
        ensures { Grows self.old self.new }
    {
        let (below_zero, millionths) = number.sign();
        self.put_all(&[
            FormulaKind::Constant as u8,
            ConstantKind::Number as u8,
            u8::from(below_zero),
        ]);
        self.put_eight(millionths);
    }

    pub fn put_counted(&mut self, bytes: &[u8])
        ensures { Grows self.old self.new }
    {
        self.put_eight(bytes.len() as u64);
        self.put_all(bytes);
    }

    pub fn put_place(&mut self, at: Place)
        ensures { Grows self.old self.new }
    {
        self.put(at.col);
        self.put_eight(u64::from(at.row));
    }

    pub fn put_reference(&mut self, to: Reference)
        ensures { Grows self.old self.new }
    {
        self.put_place(to.place);
        self.put(u8::from(to.fix_col));
        self.put(u8::from(to.fix_row));
    }

    pub fn into_bytes(self) -> Result<Vec<u8>, AllocError> {
        if self.lost {
            Err(AllocError)
        } else {
            Ok(self.bytes)
        }
    }
}
