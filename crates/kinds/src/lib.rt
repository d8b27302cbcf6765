// Reads a node, kind by kind, from the bytes behind its kind: the first of the refusals 1 to 5 that holds, or the node.
#![tactic(auto)]

ghost use Rattle.std.specs.Prelude.{◌≡◌, Bool, List, ℕ, ◌+◌, ◌<◌, ◌≤◌, ◌∷◌, length, get_or, drop, MatchResult};
ghost use Rattle.program.specs.Table.{node_limit};
ghost use Rattle.shapes.specs.Shapes.{byte_values, no_item, operator_item, slot_item};
ghost use Rattle.shapes.specs.Kinds.{number_of, constant_kind, rep_kind, fold_by_kind, call_kind};
ghost use Rattle.kinds.specs.Taken.{taken_of};
ghost use Rattle.kinds.specs.Reads.{Form, Limited, node_with, ReadsNode, ReadsLeaf, ReadsKids, ReadsSlot, ReadsSlotOnly, ReadsKept};

use nodes::{Node, get};
use shapes::Kind;
use verdict::Reason;

// Operators are 0 to 8, parameters 0 to 3, variables 0 to 15, slots 1 to 15.
pub const OPERATORS: u8 = 9;

pub const PARAMETERS: u8 = 4;

pub const VARIABLES: u8 = 16;

pub const SLOTS: u8 = 16;

// The item that stands first, and that many children behind it.
fn parts(s: &[u8], kids: usize) -> Result<(u8, &[u8]), Reason>
    ensures { MatchResult result (λ p. (p.0 ≡ get_or s.now 0 0) × (p.1.now ≡ drop 1 s.now) × (length s.now ≡ 1 + kids)) (λ e. (e ≡ Reason.BadField) × (length s.now ≡ 1 + kids → ⊥)) }
{
    match s {
        [item, children @ ..] if children.len() == kids => Ok((*item, children)),
        _ => Err(Reason::BadField),
    }
}

// A node without a constant.
fn node(kind: Kind, item: u8, children: &[u8]) -> Node
    requires { length children.now ≤ 4 }
    ensures { result ≡ node_with kind item children.now }
{
    Node {
        kind,
        item,
        kids: children.len() as u8,
        children: [
            get(children, 0),
            get(children, 1),
            get(children, 2),
            get(children, 3),
        ],
        constant: 0,
    }
}

// A constant, not the mark.
pub fn constant(s: &[u8]) -> Result<Node, Reason>
    ensures { ReadsLeaf constant_kind s.now result }
{
    let [b3, b2, b1, b0] = s else {
        return Err(Reason::BadField);
    };
    let constant = wire_reader::be32([*b3, *b2, *b1, *b0]);
    if constant == layout::MARK_BITS {
        return Err(Reason::OutOfRange);
    }
    Ok(Node {
        constant,
        ..nodes::none()
    })
}

// A parameter or a variable, below the limit.
pub fn numbered(kind: Kind, limit: u8, s: &[u8]) -> Result<Node, Reason>
    requires { Limited (number_of kind) limit }
    ensures { ReadsLeaf (number_of kind) s.now result }
{
    let (item, children) = parts(s, 0)?;
    if limit <= item {
        return Err(Reason::OutOfRange);
    }
    Ok(node(kind, item, children))
}

// An operator, or a fold by one: two children.
pub fn operator(
    kind: Kind,
    s: &[u8],
    n: usize,
    named: &mut [bool; layout::NODES],
) -> Result<Node, Reason>
    requires { Form (number_of kind) operator_item 1 2 × (n < node_limit) × (length named.old ≡ node_limit) }
    ensures { ReadsKids (number_of kind) s.now n named.old result named.new }
{
    let (item, children) = parts(s, 2)?;
    if OPERATORS <= item {
        return Err(Reason::OutOfRange);
    }
    taken::children(children, n, named)?;
    Ok(node(kind, item, children))
}

// Sense, one child; if and mux, three.
pub fn plain(
    kind: Kind,
    kids: usize,
    s: &[u8],
    n: usize,
    named: &mut [bool; layout::NODES],
) -> Result<Node, Reason>
    requires { Form (number_of kind) no_item 0 kids × (kids ≤ 4) × (n < node_limit) × (length named.old ≡ node_limit) }
    ensures { ReadsKids (number_of kind) s.now n named.old result named.new }
{
    if s.len() != kids {
        return Err(Reason::BadField);
    }
    taken::children(s, n, named)?;
    Ok(node(kind, 0, s))
}

// The variable that a rep keeps, and two children.
pub fn rep(
    s: &[u8],
    n: usize,
    named: &mut [bool; layout::NODES],
    kept: &mut [bool; layout::BYTES],
) -> Result<Node, Reason>
    requires { (n < node_limit) × (length named.old ≡ node_limit) × (length kept.old ≡ byte_values) }
    ensures { ReadsKept rep_kind s.now n named.old kept.old result named.new kept.new }
{
    let (variable, children) = parts(s, 2)?;
    if VARIABLES <= variable {
        return Err(Reason::OutOfRange);
    }
    taken::children(children, n, named)?;
    taken::take(variable, kept)?;
    Ok(node(Kind::Rep, variable, children))
}

// A slot, and the children behind it: of an nbr, with one child. One without children is a measure.
pub fn slotted(
    kind: Kind,
    kids: usize,
    s: &[u8],
    n: usize,
    named: &mut [bool; layout::NODES],
    slots: &mut [bool; layout::BYTES],
) -> Result<Node, Reason>
    requires { Form (number_of kind) slot_item 1 kids × (kids < 4) × (n < node_limit) × (length named.old ≡ node_limit) × (length slots.old ≡ byte_values) }
    ensures { ReadsSlot (number_of kind) s.now n named.old slots.old result named.new slots.new }
{
    if kids == 0 {
        return measure(kind, s, slots);
    }
    let (slot, children) = parts(s, kids)?;
    if slot == 0 || SLOTS <= slot {
        return Err(Reason::OutOfRange);
    }
    taken::children(children, n, named)?;
    taken::take(slot, slots)?;
    Ok(node(kind, slot, children))
}

// The slot of an nbr-range or an nbr-lag.
pub fn measure(kind: Kind, s: &[u8], slots: &mut [bool; layout::BYTES]) -> Result<Node, Reason>
    requires { Form (number_of kind) slot_item 1 0 × (length slots.old ≡ byte_values) }
    ensures { ReadsSlotOnly (number_of kind) s.now slots.old result slots.new }
{
    let (item, children) = parts(s, 0)?;
    if item == 0 || SLOTS <= item {
        return Err(Reason::OutOfRange);
    }
    taken::take(item, slots)?;
    Ok(node(kind, item, children))
}

// The definition that a fold is by, and two children.
pub fn fold_by(
    s: &[u8],
    n: usize,
    defs: usize,
    named: &mut [bool; layout::NODES],
) -> Result<Node, Reason>
    requires { (n < node_limit) × (length named.old ≡ node_limit) }
    ensures { (counts : List ℕ) (slots kept : List Bool) → ReadsNode (fold_by_kind ∷ s.now) n defs counts (taken_of named.old slots kept) result (taken_of named.new slots kept) }
{
    let (definition, children) = parts(s, 2)?;
    if defs <= usize::from(definition) {
        return Err(Reason::NotGiven);
    }
    taken::children(children, n, named)?;
    Ok(node(Kind::FoldBy, definition, children))
}

// A call: a definition, and as many children as it has parameters.
pub fn call(
    s: &[u8],
    n: usize,
    defs: usize,
    counts: &[u8; layout::BYTES],
    named: &mut [bool; layout::NODES],
) -> Result<Node, Reason>
    requires { (n < node_limit) × (length named.old ≡ node_limit) × ((d : ℕ) → d < defs → get_or counts.now d 0 ≤ 4) }
    ensures { (slots kept : List Bool) → ReadsNode (call_kind ∷ s.now) n defs counts.now (taken_of named.old slots kept) result (taken_of named.new slots kept) }
{
    let [definition, children @ ..] = s else {
        return Err(Reason::BadField);
    };
    let d = usize::from(*definition);
    if defs <= d {
        return Err(Reason::NotGiven);
    }
    if children.len() != usize::from(counts[d]) {
        return Err(Reason::BadField);
    }
    taken::children(children, n, named)?;
    Ok(node(Kind::Call, *definition, children))
}
