// The nodes that a word names: how many operands it has, which they are. And what its form says besides.
#![tactic(auto)]

ghost use Rattle.std.specs.Prelude.{◌≡◌, false, ◌<◌, ◌≤◌, MatchOption};
ghost use Rattle.program.specs.Table.{node_limit};
ghost use Rattle.bits.specs.Bits.{has_bit};
ghost use Rattle.words.specs.Word.{form, word};
ghost use Rattle.operands.specs.Formed.{width, operand as operand_at, has_body, part_note, body_note, AllFormed, Operand, Body};

use unpack::{count_of, form_of};

// How many operands a form has, two bits each, form 0 lowest; but for a call, whose count says it.
const WIDTHS: u64 = (2 << (2 * unpack::OPERATOR))
    | (1 << (2 * unpack::SENSE))
    | (2 << (2 * unpack::REP))
    | (3 << (2 * unpack::IF))
    | (3 << (2 * unpack::MUX))
    | (2 << (2 * unpack::FOLD_BY))
    | (2 << (2 * unpack::FOLD))
    | (1 << (2 * unpack::NBR))
    | (3 << (2 * unpack::FIELD_IF))
    | (2 << (2 * unpack::FIELD_OPERATOR));

// Sets of forms, a bit each: those that name no node,
pub const ALONE: u32 = (1 << unpack::CONSTANT)
    | (1 << unpack::PARAMETER)
    | (1 << unpack::VARIABLE)
    | (1 << unpack::RANGE)
    | (1 << unpack::LAG);

// that have a body,
pub const BODY: u32 = (1 << unpack::FOLD_BY) | (1 << unpack::CALL);

// that bind a variable in operand 1,
pub const BIND: u32 = 1 << unpack::REP;

// that read a variable,
pub const READ: u32 = 1 << unpack::VARIABLE;

// that are spatial of themselves.
pub const SPATIAL: u32 = (1 << unpack::REP)
    | (1 << unpack::NBR)
    | (1 << unpack::RANGE)
    | (1 << unpack::LAG);

// Whether a word's form is in a set.
pub fn is(w: u64, set: u32) -> bool
    ensures { result ≡ has_bit (form w) set }
{
    (set >> form_of(w)) % 2 == 1
}

#[tactic(auto, using(crate::proofs::Digits::width_digit), unfolding(crate::specs::Formed::width))]
pub fn width_of(w: u64) -> u8
    ensures { result ≡ width w }
{
    let form = form_of(w);
    if form == unpack::CALL {
        count_of(w)
    } else {
        ((WIDTHS >> (2 * (form as u32))) % 4) as u8
    }
}

// The body, as an operand.
pub const BODY_AT: u32 = 4;

// Operand j, from 0; BODY_AT is the body.
pub fn operand(w: u64, j: u32) -> usize
    requires { j < 5 }
    ensures { result ≡ operand_at w j }
{
    ((w >> (9 + 10 * j)) % 1024) as usize
}

// A table of words in which each node has a known form and names only nodes below itself, as every pass over it requires.
#[derive(Clone, Copy)]
pub struct Words<'a> {
    pub all: &'a [u64; layout::NODES],
    pub ghost formed: { AllFormed all.now },
}

impl Words<'_> {
    // The node that operand j of node n names, where it has so many.
    pub fn named(self, n: usize, j: u32) -> Option<usize>
        requires { (n < node_limit) × (j < 4) }
        ensures { MatchOption result (width (word self.entry.all.now n) ≤ j) (Operand self.entry.all.now n j) }
    {
        let w = self.all[n];
        (j < u32::from(width_of(w))).then_some(operand(w, j))
    }

    // The body that node n calls or folds by, where it does.
    #[tactic(auto, using(crate::proofs::Below::body_below))]
    pub fn body(self, n: usize) -> Option<usize>
        requires { n < node_limit }
        ensures { MatchOption result (has_body (word self.entry.all.now n) ≡ false) (Body self.entry.all.now n) }
    {
        let w = self.all[n];
        is(w, BODY).then_some(operand(w, BODY_AT))
    }

    // What is noted of operand j of node n, an entry a node; `none` where it has no such operand.
    pub fn noted<T: Copy>(self, n: usize, j: u32, notes: &[T; layout::NODES], none: T) -> T
        requires { (n < node_limit) × (j < 4) }
        ensures { result ≡ part_note none notes.now (word self.entry.all.now n) j }
    {
        match self.named(n, j) {
            Some(m) => notes[m],
            None => none,
        }
    }

    // What is noted of its body.
    pub fn body_noted<T: Copy>(self, n: usize, notes: &[T; layout::NODES], none: T) -> T
        requires { n < node_limit }
        ensures { result ≡ body_note none notes.now (word self.entry.all.now n) }
    {
        match self.body(n) {
            Some(m) => notes[m],
            None => none,
        }
    }
}
