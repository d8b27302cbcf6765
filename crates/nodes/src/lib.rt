// A loaded node, and the bytes that one is read from.
#![tactic(auto)]

ghost use Rattle.std.specs.Prelude.{◌≡◌, get_or};
ghost use Rattle.nodes.specs.Body.{no_node};

use shapes::Kind;

// item: the byte that is no child (operator, parameter, variable, slot, definition); kids: how many of the children there are, the others being 0.
#[derive(Clone, Copy)]
pub struct Node {
    pub kind: Kind,
    pub item: u8,
    pub kids: u8,
    pub children: [u8; 4],
    pub constant: u32,
}

// The byte at i, 0 past the end.
pub fn get(s: &[u8], i: usize) -> u8
    ensures { result ≡ get_or s.now i 0 }
{
    s.get(i).copied().unwrap_or(0)
}

// What the table holds where no node is.
pub fn none() -> Node
    ensures { result ≡ no_node }
{
    Node {
        kind: Kind::Constant,
        item: 0,
        kids: 0,
        children: [0; 4],
        constant: 0,
    }
}
