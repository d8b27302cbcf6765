// The events of a list that was read, done one after another on the network, with their answers.
#![tactic(auto)]

ghost use Rattle.std.specs.Prelude.{◌≡◌};
ghost use Rattle.event.specs.Event.{read_list, entries_of};
ghost use Rattle.words.specs.Trees.{tree_at};
ghost use Rattle.effects.specs.Does.{Acts, Lit};
ghost use Rattle.fire.specs.Fires.{MayFire};
ghost use Rattle.lists.specs.Listed.{event_in};
ghost use Rattle.perform.specs.Performs.{Tested, Performs};

use effects::Answer;
use fire::Program;
use lists::Event;

// One event. `st`: what a round uses as its state.
fn do_event(
    program: &Program,
    net: &mut [i32; layout::CELLS],
    event: Event,
    st: &mut [i32; layout::STATE],
) -> Answer
    requires { MayFire program.now.words.now program.now.masks.now program.now.main net.old × Lit net.old }
    ensures { Acts (tree_at program.now.words.now program.now.main) net.old (event_in event) result net.new }
{
    match event {
        Event::Fire(a) => program.fire(net, a, st),
        Event::Deliver(a, b) => Answer::from(effects::deliver(net, a, b)),
        Event::Lose(a, b) => Answer::from(effects::lose(net, a, b)),
        Event::Link(a, b, distance) => Answer::from(effects::link(net, a, b, distance)),
        Event::Signal(a, sensor, switch) => Answer::from(effects::signal(net, a, sensor, switch)),
    }
}

// The list's events, each on the network that the one before it left; answer k goes to the k-th pair of cells.
pub fn perform(program: &Program, net: &mut [i32; layout::CELLS], list: &[u8], space: &mut [i32])
    requires { Tested program.now.words.now program.now.masks.now program.now.main net.old list.now space.old }
    ensures { Performs (tree_at program.now.words.now program.now.main) net.old (entries_of (read_list list.now)) space.old net.new
        space.new }
{
    let mut st = [0; layout::STATE];
    let mut rest = list;
    for k in 0..space.len() / layout::ANSWER {
        let Some((event, after)) = lists::split_event(rest) else {
            return; // no event is left
        };
        let (code, value) = do_event(program, net, event, &mut st).numbers();
        space[layout::ANSWER * k] = code;
        space[layout::ANSWER * k + 1] = value;
        rest = after;
    }
}
