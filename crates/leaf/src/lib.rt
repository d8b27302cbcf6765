// Nodes that are done in place: a leaf (constant, parameter, variable), and an operator on two leaves.
//
// `t`: a word a node. `st`: the state (crate apply). `env`: the parameters. `n`: the node.
#![tactic(auto)]

ghost use Rattle.std.specs.Prelude.{ℤ, List};
ghost use Rattle.round.specs.Round.{eval};
ghost use Rattle.words.specs.Trees.{tree_at};
ghost use Rattle.apply.specs.State.{state_of, Gives};
ghost use Rattle.leaf.specs.Asked.{IsLeaf, IsPair};

use layout::{NODES, STATE};
use unpack::{CONSTANT, PARAMETER};

// What a leaf says.
pub fn leaf(t: &[u64; NODES], st: &[i32; STATE], env: &[i32; 4], n: u16) -> i32
    requires { IsLeaf t.now st.now n }
    ensures { (here : List ℤ) → Gives (eval here (tree_at t.now n) env.now (state_of st.now)) result st.now }
{
    let w = t[n as usize];
    let form = unpack::form_of(w);
    // Stays (b): constants first, and their item not read: a match on the form costs arithmetic a tenth. A parameter by an early return, which is a jump: a choice of two cells waits for the form.
    if form == CONSTANT {
        return unpack::constant_of(w);
    }
    let p = unpack::item_of(w) as usize;
    if form == PARAMETER {
        return env[p];
    }
    st[p]
}

// An operator on two leaves: neither faults, so only the operator can.
pub fn pair(t: &[u64; NODES], st: &mut [i32; STATE], env: &[i32; 4], n: u16) -> i32
    requires { IsPair t.now st.old n }
    ensures { (here : List ℤ) → Gives (eval here (tree_at t.now n) env.now (state_of st.old)) result st.new }
{
    let w = t[n as usize];
    let x = leaf(t, st, env, unpack::first(w));
    let y = leaf(t, st, env, unpack::second(w));
    apply::number_op(st, n, unpack::item_of(w), x, y)
}
