// Loads a program table: the fields of its bytes one after the other, each refused or taken into a table by value.
#![tactic(auto)]

ghost use Rattle.std.specs.Prelude.{◌≡◌, ◌≤◌, length};
ghost use Rattle.program.specs.Table.{node_limit};
ghost use Rattle.load.specs.Loads.{Loads};
ghost use Rattle.load.specs.Steps.{empty_table, refusal, bad_end, ended_with};

use nodes::Node;
use refusal_rows::{Root, read_node, read_root};
use taken::any_untaken;
use verdict::{Reason, Refusal};
use wire_reader::split_field;

// A call or fold by definition d has counts[d] parameters and the body bodies[d].
#[derive(Clone, Copy)]
pub struct Table {
    pub nodes: [Node; layout::NODES],
    pub counts: [u8; layout::BYTES],
    pub bodies: [u8; layout::BYTES],
    pub n: usize,
    pub defs: usize,
    pub main: u8,
}

// A refusal at its place.
fn refuse(reason: Reason, place: usize) -> Result<Table, Refusal>
    ensures { result ≡ refusal reason place }
{
    Err(Refusal { reason, place })
}

// The end of the table t, behind its main node: bytes are left, or a node has no name, or it is loaded.
fn ended(left: &[u8], named: &[bool; layout::NODES], t: Table) -> Result<Table, Refusal>
    requires { t.n ≤ node_limit }
    ensures { result ≡ ended_with (bad_end (length left.now) t.n named.now) t }
{
    if !left.is_empty() || any_untaken(named, t.n) {
        return refuse(Reason::BadEnd, 0);
    }
    Ok(t)
}

// A table of nothing.
fn empty() -> Table
    ensures { result ≡ empty_table }
{
    Table {
        nodes: [nodes::none(); layout::NODES],
        counts: [0; layout::BYTES],
        bodies: [0; layout::BYTES],
        n: 0,
        defs: 0,
        main: 0,
    }
}

// The program table that s holds, or its refusal. A refusal's place is how many whole fields stand before it: each of
// them gave a node or a definition.
pub fn load(s: &[u8]) -> Result<Table, Refusal>
    ensures { Loads s.now result }
{
    let mut t = empty();
    let mut named = [false; layout::NODES];
    let mut slots = [false; layout::BYTES];
    let mut kept = [false; layout::BYTES];
    let mut left = s;
    while !left.is_empty() {
        let place = t.n + t.defs;
        let Some((field, next)) = split_field(left) else {
            return refuse(Reason::BadField, place);
        };
        left = next;
        if field.tag == 1 {
            let b = field.body;
            // Stays (c): a match and no `?`, since the proof sees no use of the clause of `map_err`'s closure.
            match read_node(b, t.n, t.defs, &t.counts, &mut named, &mut slots, &mut kept) {
                Ok(x) => t.nodes[t.n] = x,
                Err(reason) => return refuse(reason, place),
            }
            t.n += 1;
            continue;
        }
        match read_root(field.tag, field.body, t.n, t.defs, &mut named) {
            Ok(Root::Definition { parameters, body }) => {
                t.counts[t.defs] = parameters;
                t.bodies[t.defs] = body;
                t.defs += 1;
            }
            Ok(Root::Main(main)) => return ended(left, &named, Table { main, ..t }),
            Err(reason) => return refuse(reason, place),
        }
    }
    refuse(Reason::BadEnd, 0)
}
