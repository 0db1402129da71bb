// Commands with a few bytes changed.
use crate::making::Maker;

impl Maker {
    // A tail of the command before, perhaps of no bytes or all.
    fn splice(&mut self) {
        let from = self.dice.below(self.last.len() as u64 + 1) as usize;
        let _full = self.code.try_extend_from_slice(&self.last[from..]);
    }

    // Changes something somewhere: the bytes are cut, spliced with the tail of another command, or have a byte more, less or otherwise.
    fn change(&mut self) {
        let at = self.dice.below(self.code.len() as u64 + 1) as usize;
        if at == self.code.len() {
            return;
        }
        match self.dice.below(8) {
            0 => self.code.truncate(at),
            1 => {
                self.code.truncate(at);
                self.splice();
            }
            2 => {
                let _full = self.code.try_insert(at, self.dice.byte());
            }
            3 => {
                let _ = self.code.remove(at);
            }
            4 => self.code[at] = self.dice.byte(),
            _ => self.code[at] ^= 1 << self.dice.below(8),
        }
    }

    // A command with at most two changes, and half of them with none.
    pub fn mutant(&mut self) -> &[u8] {
        // only so many bytes are copied, where a swap would move all the room
        self.last.clear();
        let _full = self.last.try_extend_from_slice(&self.code);
        self.code.clear();
        self.command();
        for _ in 0..self.dice.below(4).saturating_sub(1) {
            self.change();
        }
        self.code.as_slice()
    }
}
