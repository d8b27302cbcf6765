// The refusals 1 to 5 of one field, in the order of their rows: the first that holds, or what the field gives.
#![tactic(auto)]

ghost use Rattle.std.specs.Prelude.{◌≡◌, ℕ, ◌<◌, ◌≤◌, length, get_or};
ghost use Rattle.program.specs.Table.{node_limit};
ghost use Rattle.shapes.specs.Shapes.{byte_values};
ghost use Rattle.kinds.specs.Taken.{taken_of};
ghost use Rattle.kinds.specs.Reads.{ReadsNode};
ghost use Rattle.refusal_rows.specs.Roots.{TakesDefinition, TakesMain, TakesRoot};

use nodes::Node;
use shapes::Kind;
use verdict::Reason;

// What a field gives that is no node. Its body, or the main node, is taken.
#[derive(Clone, Copy)]
pub enum Root {
    Definition { parameters: u8, body: u8 },
    Main(u8),
}

// The node of a field's body, at a table of n nodes and defs definitions with these counts of parameters.
pub fn read_node(
    b: &[u8],
    n: usize,
    defs: usize,
    counts: &[u8; layout::BYTES],
    named: &mut [bool; layout::NODES],
    slots: &mut [bool; layout::BYTES],
    kept: &mut [bool; layout::BYTES],
) -> Result<Node, Reason>
    requires { (length named.old ≡ node_limit) × (length slots.old ≡ byte_values) × (length kept.old ≡ byte_values) × ((d : ℕ) → d < defs → get_or counts.now d 0 ≤ 4) }
    ensures { ReadsNode b.now n defs counts.now (taken_of named.old slots.old kept.old) result
        (taken_of named.new slots.new kept.new) }
{
    let [number, s @ ..] = b else {
        return Err(Reason::BadField);
    };
    if layout::NODES <= n {
        return Err(Reason::TooMany);
    }
    let Some(kind) = Kind::of(*number) else {
        return Err(Reason::OutOfRange);
    };
    match kind {
        Kind::Constant => kinds::constant(s),
        Kind::Parameter => kinds::numbered(kind, kinds::PARAMETERS, s),
        Kind::Variable => kinds::numbered(kind, kinds::VARIABLES, s),
        Kind::Operator | Kind::Fold => kinds::operator(kind, s, n, named),
        Kind::Sense => kinds::plain(kind, 1, s, n, named),
        Kind::Rep => kinds::rep(s, n, named, kept),
        Kind::If | Kind::Mux => kinds::plain(kind, 3, s, n, named),
        Kind::Nbr => kinds::slotted(kind, 1, s, n, named, slots),
        Kind::Range | Kind::Lag => kinds::measure(kind, s, slots),
        Kind::FoldBy => kinds::fold_by(s, n, defs, named),
        Kind::Call => kinds::call(s, n, defs, counts, named),
    }
}

// A definition: how many parameters it has, and its body.
fn read_definition(
    b: &[u8],
    n: usize,
    defs: usize,
    named: &mut [bool; layout::NODES],
) -> Result<Root, Reason>
    requires { length named.old ≡ node_limit }
    ensures { TakesDefinition b.now n defs named.old result named.new }
{
    if layout::DEFINITIONS <= defs {
        return Err(Reason::TooMany);
    }
    let [parameters, body] = b else {
        return Err(Reason::BadField);
    };
    if kinds::PARAMETERS < *parameters {
        return Err(Reason::OutOfRange);
    }
    taken::children(&[*body], n, named)?;
    Ok(Root::Definition {
        parameters: *parameters,
        body: *body,
    })
}

// The main node.
fn read_main(b: &[u8], n: usize, named: &mut [bool; layout::NODES]) -> Result<Root, Reason>
    requires { length named.old ≡ node_limit }
    ensures { TakesMain b.now n named.old result named.new }
{
    let [main] = b else {
        return Err(Reason::BadField);
    };
    taken::children(&[*main], n, named)?;
    Ok(Root::Main(*main))
}

// What a field gives that is no node, by its tag.
pub fn read_root(
    tag: u8,
    b: &[u8],
    n: usize,
    defs: usize,
    named: &mut [bool; layout::NODES],
) -> Result<Root, Reason>
    requires { (tag ≡ 1 → ⊥) × (length named.old ≡ node_limit) }
    ensures { TakesRoot tag b.now n defs named.old result named.new }
{
    match tag {
        2 => read_definition(b, n, defs, named),
        3 => read_main(b, n, named),
        _ => Err(Reason::BadField),
    }
}
