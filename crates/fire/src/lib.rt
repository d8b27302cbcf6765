// The event fire, on the network's cells, exactly as the crate event defines it.
//
// `here`: what a round reads, the device's cells but its messages, with the ages where those begin. `st`: the round's state (crate apply), lent by the run and made anew
// for each round.
#![tactic(auto)]

ghost use Rattle.std.specs.Prelude.{◌≡◌, ◌+◌, ◌*◌, ◌<◌, ◌≤◌, length};
ghost use Rattle.field.specs.Field.{devices, each};
ghost use Rattle.network.specs.Cells.{row, store};
ghost use Rattle.network.specs.Network.{block_size, pending_at};
ghost use Rattle.round.specs.Round.{own, message, joined};
ghost use Rattle.event.specs.Event.{fire};
ghost use Rattle.apply.specs.State.{state_of};
ghost use Rattle.words.specs.Trees.{tree_at};
ghost use Rattle.effects.specs.Does.{Acts, IdleRow};
ghost use Rattle.fire.specs.Fires.{Begun, IdleRows, Puts, MayFire};

use effects::Answer;
use verdict::Reason;

// What a round reads of the device's cells, which are from `at` on.
fn own_cells(net: &[i32], at: usize) -> [i32; layout::OWN]
    requires { at + block_size ≤ length net.now }
    ensures { result ≡ own (row net.now at block_size) }
{
    let mut here = [0; layout::OWN];
    cells::copy(&mut here, 0, net, at, layout::PENDING);
    cells::copy(
        &mut here,
        layout::LAGS,
        net,
        at + layout::AGES,
        layout::DEVICES,
    );
    here
}

// The state that a round begins with: the device's variables, nothing sent, no fault.
fn begin(here: &[i32; layout::OWN], st: &mut [i32; layout::STATE])
    ensures { Begun here.now st.new }
{
    st[..layout::SENT].copy_from_slice(&here[..layout::ROW]);
    st[layout::SENT..layout::FAULT].fill(layout::MARK);
    st[layout::FAULT] = 0;
}

// The row at `at`, to device 1 + b, after a round: with a link the slots sent, else nothing pending; a row that is so already is left alone.
fn put_message(
    net: &mut [i32],
    at: usize,
    here: &[i32; layout::OWN],
    st: &[i32; layout::STATE],
    b: usize,
)
    requires { (at + 16 ≤ length net.old) × (b < devices) × IdleRow (row net.old at 16) }
    ensures { net.new ≡ store net.old at (message here.now (state_of st.now) (1 + b)) }
{
    if here[layout::HEARD + layout::ROW * b] != layout::MARK {
        cells::copy(net, at, st, layout::SENT, layout::ROW);
        net[at] = 1;
    } else if net[at] != 0 {
        cells::no_message(net, at);
    }
}

// The rows to all devices, from `at` on.
fn put_messages(net: &mut [i32], at: usize, here: &[i32; layout::OWN], st: &[i32; layout::STATE])
    requires { (at + 16 * devices ≤ length net.old) × IdleRows net.old at }
    ensures { net.new ≡ store net.old at (joined (each (message here.now (state_of st.now)))) }
{
    for b in 0..layout::DEVICES {
        put_message(net, at + layout::ROW * b, here, st, b);
    }
}

// The device's cells from `at` on after a round that left `st`.
fn put_round(net: &mut [i32], at: usize, here: &[i32; layout::OWN], st: &[i32; layout::STATE])
    requires { (at + block_size ≤ length net.old) × IdleRows net.old (at + pending_at 1) }
    ensures { Puts net.old at here.now st.now net.new }
{
    fading::pass_round(net, at);
    cells::copy(net, at, st, 0, layout::ROW);
    put_messages(net, at + layout::PENDING, here, st);
}

// A program as rounds read it: its words, the masks beside them and its main node.
// Stays (c): that it is sound is a `requires` (MayFire) and no ghost field, since what `Sound` says of a least's body speaks of every state,
// and the check finds no proof that it has one proof at most.
#[derive(Clone, Copy)]
pub struct Program<'a> {
    pub words: &'a [u64; layout::NODES],
    pub masks: &'a [u16; layout::NODES],
    pub main: u16,
}

impl Program<'_> {
    // Device a's round. A fault, or a number of no device, changes nothing.
    pub fn fire(
        &self,
        net: &mut [i32; layout::CELLS],
        a: u8,
        st: &mut [i32; layout::STATE],
    ) -> Answer
        requires { MayFire self.now.words.now self.now.masks.now self.now.main net.old }
        ensures { Acts (tree_at self.now.words.now self.now.main) net.old (fire a) result net.new }
    {
        if !cells::is_device(a) {
            return Answer::Refused(Reason::BadItem);
        }
        let at = (a as usize - 1) * layout::BLOCK;
        let here = own_cells(net, at);
        begin(&here, st);
        let value = evaluate::evaluate(self.words, self.masks, &here, st, self.main);
        let fault = st[layout::FAULT];
        if fault != 0 {
            return Answer::Faulted(fault - 1);
        }
        put_round(net, at, &here, st);
        Answer::Value(value)
    }
}
