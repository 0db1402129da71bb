// Whole commands: acts until the command has ended, or as many as were allowed.
ghost use Rattle.std.specs.Prelude.{◌≡◌, ◌<◌, [], IfOk};
ghost use Rattle.events.specs.Events.{heard};
ghost use Rattle.host.specs.Acts.{carried, out_of};
ghost use Rattle.host.specs.Model.{ran_of, rows_of, world_of};
ghost use Rattle.plain.specs.Device.{fresh, stopped};
ghost use Rattle.plain.specs.Run.{ran_as, runs, woken};
ghost use Rattle.sheet.specs.Entry.{own};

use crate::after::After;
use crate::end::End;
use crate::machine::{Machine, Ran};
use device::memory::Device;
use events::event::Event;
use events::sizes::{MEMORY_WORDS, ROW_BYTES};
use std::alloc::{AllocError, Global};
use std::ops::ControlFlow;
use std::ops::ControlFlow::{Break, Continue};

impl Machine {
    // Goes on after an act, for at most so many acts more.
    fn go_on(
        &mut self,
        first: ControlFlow<End, After>,
        more_acts: u64,
        mut shown: Vec<Vec<u8>>,
    ) -> Result<Ran, AllocError>
        requires { more_acts < 18446744073709551615 }
        ensures { IfOk result (λ x. ran_of x (world_of self.new) ≡ carried more_acts own (rows_of shown) 0 (out_of first (world_of self.old) [])) }
    {
        let mut after = first;
        let mut lines_used = 0;
        // A budget and no index: what is gone through is what the engine asks for.
        for _ in 0..more_acts {
            let Continue(last) = after else {
                break;
            };
            lines_used += last.lines();
            after = self.act(last.event(), &mut shown)?;
        }
        match after {
            Continue(last) => Ok(Ran {
                shown,
                lines_used: lines_used + last.lines(),
                end: End::StillRunning,
            }),
            Break(end) => Ok(Ran {
                shown,
                lines_used,
                end,
            }),
        }
    }

    fn run(&mut self, heap: Global, event: Event, most_acts: u64) -> Result<Ran, AllocError>
        ensures { IfOk result (λ x. ran_of x (world_of self.new) ≡ runs most_acts own (world_of self.old) (heard event.entry) [] 0) }
    {
        let mut shown = Vec::new(heap);
        if most_acts == 0 {
            return Ok(Ran {
                shown,
                lines_used: 0,
                end: End::StillRunning,
            });
        }
        let first = self.act(event, &mut shown)?;
        self.go_on(first, most_acts - 1, shown)
    }

    // A machine beside a device of so many lines that were never written to. It has no power yet.
    pub fn new(heap: Global, lines: usize) -> Result<Machine, AllocError>
        ensures { IfOk result (λ m. (world_of m).device ≡ fresh lines) }
    {
        Ok(Machine {
            device: Device::fresh(heap, lines)?,
            memory: vec![in heap; 0; MEMORY_WORDS]?,
            row: vec![in heap; 0; ROW_BYTES]?,
        })
    }

    // A command is said, for at most so many acts.
    pub fn command(&mut self, heap: Global, text: &[u8], most_acts: u64) -> Result<Ran, AllocError>
        ensures { IfOk result (λ x. ran_of x (world_of self.new) ≡ ran_as own most_acts (world_of self.old) text.now) }
    {
        self.run(heap, Event::Said(text), most_acts)
    }

    // Power comes: memory is as at the start, and the engine is told how many lines there are.
    pub fn power(&mut self, heap: Global, most_acts: u64) -> Result<Ran, AllocError>
        ensures { IfOk result (λ x. ran_of x (world_of self.new) ≡ woken own most_acts (world_of self.old)) }
    {
        self.memory.fill(0);
        let lines = self.device.count() as u64;
        self.run(heap, Event::On(lines), most_acts)
    }

    // Power fails: of the stores in the cache, in turn, those had arrived for which there is a 1.
    pub fn stop(&mut self, arrived: &[u8])
        ensures { (world_of self.new).device ≡ stopped (world_of self.old).device arrived.now }
    {
        self.device.stop(arrived);
    }
}
