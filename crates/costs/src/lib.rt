// The cost of a program, by recursion over its tree, each body's cost noted once: a tree of more than 2^32 nodes costs no
// more steps than the table has nodes and operands. Costs are counted up to 1,000,001.
#![tactic(auto)]

ghost use Rattle.std.specs.Prelude.{◌≡◌, ◌+◌, ◌*◌, ◌<◌, ◌≤◌};
ghost use Rattle.program.specs.Table.{node_limit};
ghost use Rattle.program.specs.Tree.{cost as costOf};
ghost use Rattle.words.specs.Word.{word};
ghost use Rattle.words.specs.Trees.{tree_at};
ghost use Rattle.operands.specs.Formed.{part as part_of};
ghost use Rattle.costs.specs.Costs.{cap, capped, body_cost, Noted, Gives};

use operands::{Words, is};
use unpack::form_of;

// The most that main may cost.
pub const LIMIT: u32 = 1000000;

// One above it, where counting ends.
const CAP: u32 = LIMIT + 1;

// How many times a fold counts its body.
const FOLDED: u32 = 15;

// The cost of a body, counted once and noted.
#[cycle(counting)]
fn noted(ws: Words<'_>, notes: &mut [Option<u32>; layout::NODES], b: usize) -> u32
    requires inside { b < node_limit }
    requires noted { Noted ws.all.now notes.old }
    ensures { Gives ws.entry.all.now notes.new result (costOf (tree_at ws.entry.all.now b)) }
{
    if let Some(c) = notes[b] {
        return c;
    }
    let c = cost(ws, notes, b, 0);
    notes[b] = Some(c);
    c
}

// Each of the three adds to a sum. The cost of operand j of node n, 0 where it has none. A node that names none is
// counted where it is named.
#[cycle(counting)]
fn part(ws: Words<'_>, notes: &mut [Option<u32>; layout::NODES], n: usize, j: u32, sum: u32) -> u32
    requires inside { (n < node_limit) × (j < 4) }
    requires noted { Noted ws.all.now notes.old }
    requires few { sum ≤ cap }
    ensures { Gives ws.entry.all.now notes.new result (sum + costOf (part_of ws.entry.all.now (word ws.entry.all.now n) j)) }
{
    let Some(m) = ws.named(n, j) else {
        return sum;
    };
    if is(ws.all[m], operands::ALONE) {
        return (sum + 1).min(CAP);
    }
    cost(ws, notes, m, sum)
}

// What the body that node n calls or folds by adds.
#[tactic(auto, using(crate::proofs::Laws::body_none, crate::proofs::Laws::body_fold, crate::proofs::Laws::body_call))]
#[cycle(counting)]
fn body(ws: Words<'_>, notes: &mut [Option<u32>; layout::NODES], n: usize, sum: u32) -> u32
    requires inside { n < node_limit }
    requires noted { Noted ws.all.now notes.old }
    requires few { sum ≤ cap }
    ensures { Gives ws.entry.all.now notes.new result (sum + body_cost ws.entry.all.now (word ws.entry.all.now n)) }
{
    let Some(b) = ws.body(n) else {
        return sum;
    };
    let times = if form_of(ws.all[n]) == unpack::FOLD_BY {
        FOLDED
    } else {
        1
    };
    (sum + times * noted(ws, notes, b)).min(CAP)
}

// The cost of node n. Operand 0 comes last, as a call that is a jump.
#[cycle(counting)]
fn cost(ws: Words<'_>, notes: &mut [Option<u32>; layout::NODES], n: usize, sum: u32) -> u32
    requires inside { n < node_limit }
    requires noted { Noted ws.all.now notes.old }
    requires few { sum ≤ cap }
    ensures { Gives ws.entry.all.now notes.new result (sum + costOf (tree_at ws.entry.all.now n)) }
{
    let s = (sum + 1).min(CAP);
    if form_of(ws.all[n]) == unpack::OPERATOR {
        let s = part(ws, notes, n, 1, s);
        return part(ws, notes, n, 0, s);
    }
    let s = body(ws, notes, n, s);
    let s = part(ws, notes, n, 3, s);
    let s = part(ws, notes, n, 2, s);
    let s = part(ws, notes, n, 1, s);
    part(ws, notes, n, 0, s)
}

// The cost of the main node, or 1,000,001 where it is more.
pub fn main_cost(ws: Words<'_>, main: u16) -> u32
    requires { main < node_limit }
    ensures { result ≡ capped (costOf (tree_at ws.entry.all.now main)) }
{
    let mut notes = [None; layout::NODES];
    cost(ws, &mut notes, usize::from(main), 0)
}
