// The variables of the reps that each node of a table of words has under it, noted once a node, from the lowest up.
#![tactic(auto)]

ghost use Rattle.std.specs.Prelude.{◌≡◌, ◌<◌, ◌≤◌};
ghost use Rattle.program.specs.Table.{node_limit};
ghost use Rattle.words.specs.Word.{word};
ghost use Rattle.operands.specs.Formed.{Empty};
ghost use Rattle.rep_masks.specs.Masks.{Masks, own_mask, mask_of};

use operands::{Words, is};
use unpack::{form_of, item_of};

// The variable that a node binds.
fn own_mask(w: u64) -> u16
    ensures { result ≡ own_mask w }
{
    if is(w, operands::BIND) {
        1 << item_of(w)
    } else {
        0
    }
}

#[tactic(auto, using(crate::proofs::Notes::alone_mask, crate::proofs::Notes::operator_mask, crate::proofs::Notes::mask_parts))]
fn mask_of(ws: Words<'_>, us: &[u16; layout::NODES], n: usize) -> u16
    requires { n < node_limit }
    ensures { result ≡ mask_of us.now (word ws.entry.all.now n) }
{
    let w = ws.all[n];
    if is(w, operands::ALONE) {
        return 0;
    }
    let sides = ws.noted(n, 0, us, 0) | ws.noted(n, 1, us, 0);
    if form_of(w) == unpack::OPERATOR {
        return sides; // an operator: most of the others
    }
    own_mask(w) | ws.body_noted(n, us, 0) | sides | ws.noted(n, 2, us, 0) | ws.noted(n, 3, us, 0)
}

// The variables of the reps under each node, in called definitions too. The words from count on are 0.
pub fn make_masks(ws: Words<'_>, us: &mut [u16; layout::NODES], count: usize)
    requires few { count ≤ node_limit }
    requires empty { Empty ws.all.now count }
    ensures { Masks ws.entry.all.now us.new node_limit }
{
    *us = [0; layout::NODES];
    for n in 0..count {
        us[n] = mask_of(ws, us, n);
    }
}
