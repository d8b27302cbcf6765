// Refusal 7: which of a node's children are fields, whether these are the sorts that its kind asks for, and the lowest node
// that offends.
#![tactic(auto)]

ghost use Rattle.std.specs.Prelude.{◌≡◌};
ghost use Rattle.shapes.specs.Kinds.{number_of};
ghost use Rattle.sorts.specs.Sorts.{is_field_at, flags_in, broken_by, lower_field, lowest_field, node_or_none};

use nodes::Node;
use shapes::Kind;

// Whether node k is a field, by its word.
pub fn is_field(ws: &[u64; layout::NODES], k: u8) -> bool
    ensures { result ≡ is_field_at ws.now k }
{
    unpack::form_of(ws[usize::from(k)]) >= unpack::FIELDS
}

// Which of a node's children are fields.
pub fn flags_of(ws: &[u64; layout::NODES], x: Node) -> [bool; 4]
    ensures { result ≡ flags_in ws.now x }
{
    let [a, b, c, d] = x.children;
    [
        0 < x.kids && is_field(ws, a),
        1 < x.kids && is_field(ws, b),
        2 < x.kids && is_field(ws, c),
        3 < x.kids && is_field(ws, d),
    ]
}

// Whether a node's operands are not of the sorts that its kind asks for, by which of them are fields.
pub fn broken(kind: Kind, flags: [bool; 4]) -> bool
    ensures { result ≡ broken_by (number_of kind) flags }
{
    let [a, b, c, d] = flags;
    match kind {
        Kind::Constant | Kind::Parameter | Kind::Variable | Kind::Operator => false,
        Kind::Range | Kind::Lag => false,
        Kind::Sense | Kind::Nbr => a,
        Kind::Rep => a || b,
        Kind::If => a || b != c,
        Kind::Mux => a || b || c,
        Kind::Fold | Kind::FoldBy => a || !b,
        Kind::Call => a || b || c || d,
    }
}

// The lower of `low` and of node k, where that is a field.
pub fn lower_field(ws: &[u64; layout::NODES], k: u8, low: Option<u8>) -> Option<u8>
    ensures { node_or_none result ≡ lower_field ws.now k (node_or_none low) }
{
    if is_field(ws, k) && low.is_none_or(|n| k < n) {
        Some(k)
    } else {
        low
    }
}

// The lowest of `low` and of the nodes among ks that are fields.
pub fn lowest_field(ws: &[u64; layout::NODES], ks: &[u8], low: Option<u8>) -> Option<u8>
    ensures { node_or_none result ≡ lowest_field ws.now ks.now (node_or_none low) }
{
    let mut lowest = low;
    for k in ks {
        lowest = lower_field(ws, *k, lowest);
    }
    lowest
}
