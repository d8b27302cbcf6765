// The word of one node.
#![tactic(auto)]

ghost use Rattle.std.specs.Prelude.{◌≡◌, Bool, ◌<◌, get_or};
ghost use Rattle.shapes.specs.Kinds.{operator_kind, number_of};
ghost use Rattle.encode.specs.Parts.{form_by, item_by, kid, IsConstant, IsParts, IsWord, Fits, Childless};

use nodes::Node;
use shapes::Kind;

// The word of a constant: its upper half is the constant, as a signed number, and 2^31 more.
fn constant_word(c: u32) -> u64
    ensures { IsConstant c result }
{
    (u64::from(c) + 2147483648) % 4294967296 * 4294967296
}

// Child j, 0 where there is none.
fn child(x: Node, j: u8) -> u64
    requires { j < 4 }
    ensures { result ≡ kid x.kids j (get_or x.children j 0) }
{
    if j < x.kids {
        u64::from(x.children[usize::from(j)])
    } else {
        0
    }
}

// The word of these parts.
fn parts_word(form: u8, item: u8, x: Node, body: u8) -> u64
    requires { (form < 32) × (item < 16) × (x.kids < 8) }
    ensures { IsParts form item x body result }
{
    let w = u64::from(body) + 1024 * u64::from(x.kids);
    let w = child(x, 3) + 1024 * w;
    let w = child(x, 2) + 1024 * w;
    let w = child(x, 1) + 1024 * w;
    let w = child(x, 0) + 1024 * w;
    let w = u64::from(item) + 16 * w;
    u64::from(form) + 32 * w
}

// The form of a kind. side: an operator has a field for a side; branch: an if's second child is a field.
fn form_by(kind: Kind, side: bool, branch: bool) -> u8
    ensures { result ≡ form_by (number_of kind) side branch }
{
    match kind {
        Kind::Constant => unpack::CONSTANT,
        Kind::Parameter => unpack::PARAMETER,
        Kind::Variable => unpack::VARIABLE,
        Kind::Operator if side => unpack::FIELD_OPERATOR,
        Kind::Operator => unpack::OPERATOR,
        Kind::Sense => unpack::SENSE,
        Kind::Rep => unpack::REP,
        Kind::If if branch => unpack::FIELD_IF,
        Kind::If => unpack::IF,
        Kind::Mux => unpack::MUX,
        Kind::Nbr => unpack::NBR,
        Kind::Range => unpack::RANGE,
        Kind::Fold => unpack::FOLD,
        Kind::FoldBy => unpack::FOLD_BY,
        Kind::Call => unpack::CALL,
        Kind::Lag => unpack::LAG,
    }
}

// The item of a kind's word, 0 where that has none.
fn item_by(kind: Kind, i: u8) -> u8
    ensures { result ≡ item_by (number_of kind) i }
{
    match kind {
        Kind::Constant | Kind::Sense | Kind::If | Kind::Mux | Kind::FoldBy | Kind::Call => 0,
        _ => i,
    }
}

// The word of a node whose definition has this body. side: an operator has a field for a side; branch: the second child
// is a field.
pub fn word_of(x: Node, body: u8, side: bool, branch: bool) -> u64
    requires { Fits x }
    ensures { IsWord x body side branch result }
{
    if x.kind == Kind::Constant {
        return constant_word(x.constant);
    }
    parts_word(
        form_by(x.kind, side, branch),
        item_by(x.kind, x.item),
        x,
        body,
    )
}

// The word of a node without children: a constant, parameter, variable, nbr-range or nbr-lag, or a call without arguments.
pub fn childless_word(x: Node, body: u8) -> u64
    requires { Childless x }
    ensures { (side branch : Bool) → IsWord x body side branch result }
{
    if x.kind == Kind::Constant {
        return constant_word(x.constant);
    }
    let w = 562949953421312 * u64::from(body); // from bit 49
    if x.kind == Kind::Call {
        return w + u64::from(unpack::CALL);
    }
    w + 32 * u64::from(x.item) + u64::from(form_by(x.kind, false, false))
}

// The word of an operator. side: it has a field for a side.
pub fn operator_word(x: Node, body: u8, side: bool) -> u64
    requires { (number_of x.kind ≡ operator_kind) × (x.kids ≡ 2) × (x.item < 16) }
    ensures { (branch : Bool) → IsWord x body side branch result }
{
    let [a, b, ..] = x.children;
    let w = u64::from(body) + 2048; // two children, from bit 10
    let w = u64::from(b) + 1073741824 * w; // the third and fourth are 0
    let w = u64::from(a) + 1024 * w;
    let w = u64::from(x.item) + 16 * w;
    u64::from(form_by(Kind::Operator, side, false)) + 32 * w
}
