// One event, and a list of them: the tests in the order of the refusal table, then the events.
#![tactic(auto)]

ghost use Rattle.std.specs.Prelude.{◌≡◌};
ghost use Rattle.event.specs.Event.{Read};
ghost use Rattle.event.specs.Calls.{carried_out, one_event, run as run_of};
ghost use Rattle.calls.specs.Carried.{left_by, Counts};

use fire::Program;
use verdict::{Reason, Refusal};

// The tests and the events of a list; `count` says how many events it has, or refuses it.
fn carry_out<C: FnOnce() -> Result<usize, Refusal> + Drop>(
    program: &[u8],
    network: &mut [i32],
    list: &[u8],
    count: C,
    space: &mut [i32],
) -> Result<(), Refusal>
    requires callable { C.pre count }
    requires counts { (read : Read) × Counts (C.post count) list.now read }
    ensures { (read : Read) → Counts (C.post count) list.now read
        → left_by result network.new space.new ≡ carried_out program.now network.old read space.old }
{
    let mut words = [0; layout::NODES];
    let mut masks = [0; layout::NODES];
    let main = program_check::prepare(program, &mut words, &mut masks)?;
    scan::soundness(network)?;
    let events = count()?;
    if space.len() / layout::ANSWER < events {
        return Err(Refusal {
            reason: Reason::ShortSpace,
            place: 0,
        });
    }
    let prepared = Program {
        words: &words,
        masks: &masks,
        main,
    };
    let Some(cells) = network.as_mut_array() else {
        unreachable!() // a sound network is whole
    };
    perform::perform(&prepared, cells, list, space);
    Ok(())
}

// Does the one event of a list of exactly one field.
pub fn event(
    program: &[u8],
    network: &mut [i32],
    list: &[u8],
    space: &mut [i32],
) -> Result<(), Refusal>
    ensures { left_by result network.new space.new ≡ one_event program.now network.old list.now space.old }
{
    carry_out(program, network, list, || lists::one_event(list), space)
}

// Does every event of a list, in order.
pub fn run(
    program: &[u8],
    network: &mut [i32],
    list: &[u8],
    space: &mut [i32],
) -> Result<(), Refusal>
    ensures { left_by result network.new space.new ≡ run_of program.now network.old list.now space.old }
{
    carry_out(program, network, list, || lists::count_events(list), space)
}
