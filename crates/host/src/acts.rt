// One act of the engine: a step, and what it asks of the device.
ghost use Rattle.std.specs.Prelude.{◌≡◌, ℕ, List, [], ◌∷◌, ◌++◌, take, IfOk, OnOk};
ghost use Rattle.events.specs.Events.{heard};
ghost use Rattle.host.specs.Acts.{acted_by, carried_out, out_of};
ghost use Rattle.host.specs.Model.{row_of, rows_of, world_of};
ghost use Rattle.sheet.specs.Entry.{own};

use crate::after::After;
use crate::end::End;
use crate::machine::Machine;
use device::store::LINE_BYTES;
use events::event::Event;
use events::told::Told;
use sheet::step;
use std::alloc::AllocError;
use std::ops::ControlFlow;
use std::ops::ControlFlow::{Break, Continue};

impl Machine {
    // Past the last line it is a fault.
    fn store(&mut self, k: u64) -> Result<ControlFlow<End, After>, AllocError>
        ensures { IfOk result (λ a. out_of a (world_of self.new) [] ≡ carried_out (Told.Store k) (world_of self.old) (row_of self.old)) }
    {
        if k as usize >= self.device.count() {
            return Ok(Break(End::Fault));
        }
        let mut line = [0; LINE_BYTES];
        line.copy_from_slice(&self.row[0..LINE_BYTES]);
        self.device.store(k, line)?;
        Ok(Continue(After::Stored))
    }

    fn show(&self, n: u64, shown: &mut Vec<Vec<u8>>) -> Result<(), AllocError>
        ensures { OnOk result (rows_of shown.new ≡ rows_of shown.old ++ take n (row_of self.now) ∷ []) }
    {
        let few = self.row.len().min(n as usize);
        let row = Vec::from_slice(*shown.allocator(), &self.row[..few])?;
        shown.push(row)?;
        Ok(())
    }

    fn carry_out(
        &mut self,
        told: Told,
        shown: &mut Vec<Vec<u8>>,
    ) -> Result<ControlFlow<End, After>, AllocError>
        ensures { IfOk result (λ a. (ss : List (List ℕ)) × (rows_of shown.new ≡ rows_of shown.old ++ ss) × (out_of a (world_of self.new) ss ≡ carried_out told (world_of self.old) (row_of self.old))) }
    {
        match told {
            Told::Read(k) => Ok(Continue(After::Line(self.device.read(k)))),
            Told::Store(k) => self.store(k),
            Told::Settle(k) => {
                self.device.settle(k);
                Ok(Continue(After::Next))
            }
            Told::Shows(n) => {
                self.show(n, shown)?;
                Ok(Continue(After::Next))
            }
            Told::Done => Ok(Break(End::Done)),
            Told::No(k) => Ok(Break(End::refused(k))),
        }
    }

    // One step, and what it asks for. Rows that are shown are put behind those that were.
    pub(crate) fn act(
        &mut self,
        event: Event,
        shown: &mut Vec<Vec<u8>>,
    ) -> Result<ControlFlow<End, After>, AllocError>
        ensures { IfOk result (λ a. (ss : List (List ℕ)) × (rows_of shown.new ≡ rows_of shown.old ++ ss) × (out_of a (world_of self.new) ss ≡ acted_by own (world_of self.old) (heard event.entry))) }
    {
        let mut eight = [0; 8];
        let told = step(
            &mut self.memory,
            event.kind(),
            event.bytes(&mut eight),
            &mut self.row,
        );
        self.carry_out(told, shown)
    }
}
