// Gives the nodes of a checked table their quick forms, from the lowest up: an operator on two leaves, a fold by a definition that gives the lesser of its two arguments.
// What a node stands for does not change, only the way the evaluator goes.
#![tactic(auto)]

ghost use Rattle.std.specs.Prelude.{◌≡◌, true, ◌+◌, ◌<◌, ◌≤◌};
ghost use Rattle.program.specs.Table.{node_limit};
ghost use Rattle.words.specs.Form.{if_form, leaf_forms};
ghost use Rattle.words.specs.Word.{form, word};
ghost use Rattle.words.specs.Trees.{tree_at};
ghost use Rattle.words.specs.Sound.{Least, AllSorted};
ghost use Rattle.quick.specs.Quick.{Is, Picks, Quick, Quickened};

use unpack::{body_of, first, form_of, item_of, second, third};

// The operator <.
const LESS: u8 = 4;

// What a word grows by when its form changes.
const TO_PAIR: u64 = (unpack::PAIR - unpack::OPERATOR) as u64;

const TO_LEAST: u64 = (unpack::LEAST - unpack::FOLD_BY) as u64;

// A table of words in which what each node names is below it and of the sort that its form asks for.
#[derive(Clone, Copy)]
struct Sorted<'a> {
    all: &'a [u64; layout::NODES],
    ghost sorted: { AllSorted all.now },
}

impl Sorted<'_> {
    // Whether node n is a leaf that gives a number.
    fn is_leaf(self, n: u16) -> bool
        requires { n < node_limit }
        ensures { result ≡ true → form (word self.entry.all.now n) < leaf_forms }
    {
        form_of(self.all[usize::from(n)]) < unpack::LEAVES
    }

    // Whether node n has form f and item i.
    fn is(self, n: u16, f: u8, i: u8) -> bool
        requires { n < node_limit }
        ensures { result ≡ true → Is self.entry.all.now n f i }
    {
        let w = self.all[usize::from(n)];
        form_of(w) == f && item_of(w) == i
    }

    // Whether node n, an if, is `(if (< a b) a b)` of parameters p and q. Its condition stands below it and is quick already.
    fn picks(self, n: u16, p: u8, q: u8) -> bool
        requires { (n < node_limit) × (form (word self.all.now n) ≡ if_form) }
        ensures { result ≡ true → Picks self.entry.all.now n p q }
    {
        let w = self.all[usize::from(n)];
        let c = self.all[usize::from(first(w))];
        self.is(second(w), unpack::PARAMETER, p)
            && self.is(third(w), unpack::PARAMETER, q)
            && self.is(first(w), unpack::PAIR, LESS)
            && self.is(first(c), unpack::PARAMETER, p)
            && self.is(second(c), unpack::PARAMETER, q)
    }

    // Whether node n, a body, gives the lesser of its two arguments.
    #[tactic(auto, using(crate::proofs::Lessers::picks_first, crate::proofs::Lessers::picks_second))]
    fn is_least(self, n: u16) -> bool
        requires { n < node_limit }
        ensures { result ≡ true → Least (tree_at self.entry.all.now n) }
    {
        form_of(self.all[usize::from(n)]) == unpack::IF
            && (self.picks(n, 0, 1) || self.picks(n, 1, 0))
    }

    // Node n's word, with its quick form where it has one.
    fn quick(self, n: usize) -> u64
        requires { n < node_limit }
        ensures { Quick self.entry.all.now n result }
    {
        let w = self.all[n];
        let form = form_of(w);
        if form == unpack::OPERATOR && self.is_leaf(first(w)) && self.is_leaf(second(w)) {
            w + TO_PAIR
        } else if form == unpack::FOLD_BY && self.is_least(body_of(w)) {
            w + TO_LEAST
        } else {
            w
        }
    }
}

// Each node below n.
pub fn quicken(ws: &mut [u64; layout::NODES], n: usize)
    requires { (n ≤ node_limit) × AllSorted ws.old }
    ensures { Quickened ws.old ws.new }
{
    for i in 0..n {
        ws[i] = Sorted { all: ws }.quick(i);
    }
}
