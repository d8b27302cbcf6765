// A loaded table as words, and the lowest node whose sort is broken (refusal 7).
#![tactic(auto)]

ghost use Rattle.std.specs.Prelude.{◌≡◌, length, get_or};
ghost use Rattle.program.specs.Table.{node_limit};
ghost use Rattle.load.specs.Loads.{Good};
ghost use Rattle.sorts.specs.Sorts.{node_or_none, first_bad};
ghost use Rattle.pack.specs.Packs.{kind_of, item_of, Column, Packs};

use encode::{childless_word, operator_word, word_of};
use load::Table;
use shapes::Kind;
use sorts::{broken, flags_of, is_field, lower_field, lowest_field};

// The body of definition d; of a number that is none, what stands there.
fn body_of(bodies: &[u8; layout::BYTES], d: u8) -> u8
    ensures { result ≡ get_or bodies.now d 0 }
{
    bodies[usize::from(d)]
}

// The lowest node that offends, with node n looked at behind those below it.
fn first_bad(low: Option<u8>, n: u8, bad: bool) -> Option<u8>
    ensures { node_or_none result ≡ first_bad (node_or_none low) n bad }
{
    match low {
        Some(k) => Some(k),
        None if bad => Some(n),
        None => None,
    }
}

// The words, kinds and items of a table, and the lowest node whose sort is broken.
pub fn pack(
    t: Table,
    ws: &mut [u64; layout::NODES],
    kinds: &mut [u8; layout::NODES],
    items: &mut [u8; layout::NODES],
) -> Option<u8>
    requires { Good t × (length ws.old ≡ node_limit) × (length kinds.old ≡ node_limit) × (length items.old ≡ node_limit) }
    ensures { Packs t ws.new (node_or_none result) × Column kind_of t kinds.new t.n × Column item_of t items.new t.n }
{
    *ws = [0; layout::NODES];
    let mut lowest = None;
    for i in 0..t.n {
        let x = t.nodes[i];
        let body = body_of(&t.bodies, x.item);
        kinds[i] = x.kind.number();
        items[i] = x.item;
        // a node without children and an operator have no sort to break
        if x.kids == 0 {
            ws[i] = childless_word(x, body);
        } else if x.kind == Kind::Operator {
            let side = is_field(ws, x.children[0]) | is_field(ws, x.children[1]);
            ws[i] = operator_word(x, body, side);
        } else {
            let flags = flags_of(ws, x);
            ws[i] = word_of(x, body, flags[0] | flags[1], flags[1]);
            lowest = first_bad(lowest, i as u8, broken(x.kind, flags));
        }
    }
    // a body or main that is a field offends
    let defs = t.defs;
    lowest_field(ws, &t.bodies[..defs], lower_field(ws, t.main, lowest))
}
