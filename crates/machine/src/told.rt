// How an act is told: its bytes go into the lent row.
ghost use Rattle.std.specs.Prelude.{◌≤◌, length};
ghost use Rattle.events.specs.Entry.{ActTold};
ghost use Rattle.lines.specs.Told.{act_of};

use events::told::Told;
use lines::act::Act;

#[tactic(auto, unfolding(events::specs::Entry::ActTold), using(lines::proofs::Words::length_bytes))]
pub(crate) fn tell_act(act: Act, out: &mut [u8]) -> Told
    requires { 1040 ≤ length out.old }
    ensures { ActTold (act_of act) result out.old out.new }
{
    match act {
        Act::Read(k) => Told::Read(k),
        Act::Store(k, line) => {
            line.write_to(out);
            Told::Store(k)
        }
        Act::Settle(k) => Told::Settle(k),
        Act::Show(row) => Told::Shows(row.write_to(out)),
    }
}
