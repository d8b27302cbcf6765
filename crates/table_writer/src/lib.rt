// A program's table while it is written: the bytes so far, to which each call appends a field.
#![tactic(auto)]

ghost use Rattle.std.specs.Prelude.{◌≡◌, [], ◌∷◌, ◌++◌, ◌+◌, ◌≤◌, length};
ghost use Rattle.program.specs.Table.{constant as a_constant};
ghost use Rattle.program.specs.Conditions.{field_bytes, item_bytes};
ghost use Rattle.shapes.specs.Kinds.{number_of};

use shapes::Kind;
use std::marker::Model;

// The bytes that a table has room for.
pub const ROOM: usize = 2560;

// The tags of a table's fields.
const NODE: u8 = 1;

const DEFINITION: u8 = 2;

const MAIN_NODE: u8 = 3;

// A table as far as it is written.
#[derive(Drop)]
pub struct Table {
    bytes: [u8; ROOM],
    len: usize,
}

// Clauses see the bytes written.
impl Model for Table {
    ghost use Rattle.std.specs.Prelude.{ℕ, ◌≤◌, List, take};
    ghost use Rattle.table_writer.specs.declared.TheConstants.{ROOM};

    ghost Value = { List ℕ };

    ghost view = { λ t. take t.len t.bytes };

    ghost invariant = { λ t. t.len ≤ ROOM };
}

impl Table {
    pub fn new() -> Self
        ensures { result ≡ [] }
    {
        Table {
            bytes: [0; ROOM],
            len: 0,
        }
    }

    pub fn as_slice(&self) -> &[u8]
        ensures { result.now ≡ self.now }
    {
        &self.bytes[..self.len]
    }

    // Bytes behind those written, as they are.
    pub fn extend_from_slice(&mut self, bytes: &[u8])
        requires { length self.old + length bytes.now ≤ ROOM }
        ensures { self.new ≡ self.old ++ bytes.now }
    {
        let end = self.len + bytes.len();
        self.bytes[self.len..end].copy_from_slice(bytes);
        self.len = end;
    }

    // A field whose body comes in two parts: its tag, its length in two bytes, the body.
    fn field(&mut self, tag: u8, first: &[u8], rest: &[u8])
        requires { length self.old + (3 + (length first.now + length rest.now)) ≤ ROOM }
        ensures { self.new ≡ self.old ++ field_bytes tag (first.now ++ rest.now) }
    {
        let [high, low] = ((first.len() + rest.len()) as u16).to_be_bytes();
        self.extend_from_slice(&[tag, high, low]);
        self.extend_from_slice(first);
        self.extend_from_slice(rest);
    }

    // A node that is a constant.
    pub fn constant(&mut self, bits: u32)
        requires { length self.old + 8 ≤ ROOM }
        ensures { self.new ≡ self.old ++ field_bytes 1 (0 ∷ item_bytes a_constant bits) }
    {
        self.field(NODE, &[Kind::Constant.number()], &bits.to_be_bytes());
    }

    // A node of a kind with one item of a byte.
    pub fn leaf(&mut self, kind: Kind, n: u8)
        requires { length self.old + 5 ≤ ROOM }
        ensures { self.new ≡ self.old ++ field_bytes 1 (number_of kind ∷ n ∷ []) }
    {
        self.field(NODE, &[kind.number(), n], &[]);
    }

    // A node of a kind with its operands.
    pub fn node(&mut self, kind: Kind, operands: &[u8])
        requires { length self.old + (4 + length operands.now) ≤ ROOM }
        ensures { self.new ≡ self.old ++ field_bytes 1 (number_of kind ∷ operands.now) }
    {
        self.field(NODE, &[kind.number()], operands);
    }

    // The same with an item of a byte before the operands.
    pub fn node_with(&mut self, kind: Kind, n: u8, operands: &[u8])
        requires { length self.old + (5 + length operands.now) ≤ ROOM }
        ensures { self.new ≡ self.old ++ field_bytes 1 (number_of kind ∷ n ∷ operands.now) }
    {
        self.field(NODE, &[kind.number(), n], operands);
    }

    // A definition: its parameters' count, its body's node.
    pub fn definition(&mut self, count: u8, body: u8)
        requires { length self.old + 5 ≤ ROOM }
        ensures { self.new ≡ self.old ++ field_bytes 2 (count ∷ body ∷ []) }
    {
        self.field(DEFINITION, &[count, body], &[]);
    }

    pub fn main_node(&mut self, n: u8)
        requires { length self.old + 4 ≤ ROOM }
        ensures { self.new ≡ self.old ++ field_bytes 3 (n ∷ []) }
    {
        self.field(MAIN_NODE, &[n], &[]);
    }
}
