// Whether the trees of a table read only parameters and variables that they may. What each node's tree reads is noted
// once, from the lowest node up: a quick pass, in which no tree is walked.
#![tactic(auto)]

ghost use Rattle.std.specs.Prelude.{◌≡◌, true, ◌<◌, ◌≤◌};
ghost use Rattle.program.specs.Table.{node_limit};
ghost use Rattle.words.specs.Word.{word};
ghost use Rattle.scope_pass.specs.Reads.{own_reads, inner_reads, reads_of, Notes, Within, Clean};

use operands::{Words, is};
use unpack::{form_of, item_of};

// What a tree reads is a number of 32 bits: the parameters in the low sixteen, and in the high sixteen the variables that
// no rep of the tree binds.
const VARIABLES: u32 = 1 << 16;

// The forms that read something of themselves.
const OWN: u32 = (1 << unpack::PARAMETER) | operands::READ;

// A parameter or a variable.
#[tactic(auto, using(crate::proofs::Notes::high_bit))]
fn own_reads(w: u64) -> u32
    ensures { result ≡ own_reads w }
{
    if form_of(w) == unpack::PARAMETER {
        1 << item_of(w)
    } else {
        VARIABLES << item_of(w)
    }
}

// What operand 1 reads, but for the variable that the node binds in it.
#[tactic(auto, using(crate::proofs::Notes::high_bit))]
fn inner_reads(w: u64, x: u32) -> u32
    ensures { result ≡ inner_reads w x }
{
    if is(w, operands::BIND) {
        x & !(VARIABLES << item_of(w))
    } else {
        x
    }
}

// Node n. Constants and operators, which are most of a table, are told apart first.
#[tactic(auto, using(crate::proofs::Notes::reads_constant, crate::proofs::Notes::reads_operator, crate::proofs::Notes::reads_own, crate::proofs::Notes::reads_parts))]
fn reads_of(ws: Words<'_>, us: &[u32; layout::NODES], n: usize) -> u32
    requires { n < node_limit }
    ensures { result ≡ reads_of us.now (word ws.entry.all.now n) }
{
    let w = ws.all[n];
    let form = form_of(w);
    if form == unpack::CONSTANT {
        return 0;
    }
    if form == unpack::OPERATOR {
        return ws.noted(n, 0, us, 0) | ws.noted(n, 1, us, 0);
    }
    if is(w, OWN) {
        return own_reads(w);
    }
    ws.noted(n, 0, us, 0)
        | inner_reads(w, ws.noted(n, 1, us, 0))
        | ws.noted(n, 2, us, 0)
        | ws.noted(n, 3, us, 0)
}

// Each node below count.
fn note(ws: Words<'_>, us: &mut [u32; layout::NODES], count: usize)
    requires { count ≤ node_limit }
    ensures { Notes ws.entry.all.now us.new count }
{
    for n in 0..count {
        us[n] = reads_of(ws, us, n);
    }
}

// Whether the tree of a body reads only parameters below its count. Nodes are noted up to the last.
fn within(us: &[u32; layout::NODES], last: usize, body: u8, count: u8) -> bool
    ensures { result ≡ true → Within us.now last body count }
{
    let b = usize::from(body);
    b <= last && count < 16 && us[b] >> count == 0
}

// Whether main's tree and those of the definitions misread nothing. True is sure; where a body stands above main, the
// answer is false.
pub fn clean(
    ws: Words<'_>,
    counts: &[u8; layout::NODES],
    bodies: &[u8; layout::NODES],
    definitions: usize,
    main: usize,
) -> bool
    requires { (definitions ≤ node_limit) × (main < node_limit) }
    ensures { result ≡ true → Clean ws.entry.all.now counts.now bodies.now definitions main }
{
    let mut us = [0; layout::NODES];
    note(ws, &mut us, main + 1);
    for d in 0..definitions {
        if !within(&us, main, bodies[d], counts[d]) {
            return false;
        }
    }
    us[main] == 0
}
