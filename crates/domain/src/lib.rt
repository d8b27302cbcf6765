// Fields held as sixteen numbers beside their domain, combined pointwise, and a domain walked from its lowest device up.
#![tactic(auto)]

ghost use Rattle.std.specs.Prelude.{◌≡◌, ◌≢◌, true, false, ◌∷◌, ℕ, ◌<◌, length, get_or, replicate, pos, bit_and, IfSome, IfNone};
ghost use Rattle.std.proofs.Math.Option.{none};
ghost use Rattle.std.specs.Int.Count.{count_trailing_zeros};
ghost use Rattle.std.specs.Iterator.{item_count};
ghost use Rattle.domain.specs.Walk.{Takes};
ghost use Rattle.bits.specs.Bits.{has_bit};
ghost use Rattle.number.specs.Number.{operator_of, operation_result, over};
ghost use Rattle.field.specs.Field.{everywhere, pointwise, faults_in};
ghost use Rattle.arith.specs.Named.{named};
ghost use Rattle.domain.specs.Held.{field_of, held};
ghost use Rattle.domain.specs.Members.{members, any_zero};

use arith::Operator;
use layout::DEVICES;

// A domain: bit k says whether device k + 1 is in it. As an iterator it gives its devices, counted from 0, lowest first.
#[derive(Clone, Copy, Drop)]
pub struct Domain {
    pub bits: u16,
}

impl Domain {
    // How many devices there are: "ones give its size". `zero_in` takes as many turns.
    #[tactic(auto, using(crate::proofs::Laws::walks))]
    pub fn size(self) -> u32
        ensures { result ≡ length (members self.bits) }
    {
        self.bits.count_ones()
    }

    // The devices that both have.
    pub fn shared(self, other: Domain) -> Domain
        ensures { result.bits ≡ bit_and self.bits other.bits }
    {
        Domain {
            bits: self.bits & other.bits,
        }
    }

    // The rest without the lowest device. Stays (b): apart from `split_lowest`, so that the compiler makes of it `bits & (bits - 1)`; in one function folds took half as long again.
    #[tactic(auto, using(crate::proofs::Laws::walks))]
    pub fn rest(self) -> Domain
        requires { 0 < self.bits }
        ensures { (result.bits < self.bits) × (members self.bits ≡ count_trailing_zeros 16 self.bits ∷ members result.bits) }
    {
        Domain {
            bits: self.bits - (1 << self.bits.trailing_zeros()),
        }
    }

    // The lowest device, counted from 0, and the rest without it.
    #[tactic(auto, using(crate::proofs::Laws::walks))]
    pub fn split_lowest(self) -> Option<(usize, Domain)>
        ensures none { IfNone result (self.bits ≡ 0) }
        ensures lowest { IfSome result (λ r. (r.0 < 16) × (r.0 ≡ count_trailing_zeros 16 self.bits)) }
        ensures rest { IfSome result (λ r. (r.1.bits < self.bits) × (members self.bits ≡ r.0 ∷ members r.1.bits)) }
    {
        if self.bits == 0 {
            return None;
        }
        Some((self.bits.trailing_zeros() as usize, self.rest()))
    }
}

impl Iterator for Domain {
    type Item = usize;

    ghost next_gives = { Takes };

    ghost remaining = { item_count (λ d. members d.bits) };

    #[tactic(auto, using(crate::proofs::Laws::walks))]
    fn next(&mut self) -> Option<usize> {
        let (lowest, rest) = self.split_lowest()?;
        *self = rest;
        Some(lowest)
    }
}

// A field: cells[k] is the number of device k + 1 where that is in its domain.
#[derive(Drop)]
pub struct Held {
    pub cells: [i32; DEVICES],
    pub dom: Domain,
}

impl Held {
    // A number at each device.
    #[tactic(auto, using(arith::proofs::Signs::reads), unfolding(crate::specs::Held::field_of, field::specs::Field::from))]
    pub fn spread(v: i32) -> Held
        ensures { held result ≡ everywhere v }
    {
        Held {
            cells: [v; DEVICES],
            dom: Domain { bits: u16::MAX },
        }
    }

    // The field of no device.
    #[tactic(auto, using(arith::proofs::Signs::reads), unfolding(crate::specs::Held::field_of, field::specs::Field::from))]
    pub fn no_field() -> Held
        ensures { held result ≡ replicate 16 none }
    {
        Held {
            cells: [0; DEVICES],
            dom: Domain { bits: 0 },
        }
    }

    // Whether the devices that two fields share have a divisor 0.
    #[tactic(auto, using(crate::proofs::Fields::fields))]
    pub fn faults_in(&self, o: Operator, right: &Held) -> bool
        ensures { result ≡ faults_in (named o) (held self.now) (held right.now) }
    {
        o == Operator::Over && zero_in(self.dom.shared(right.dom), &right.cells)
    }

    // An operator on two fields: at the devices that they share.
    #[tactic(auto, using(crate::proofs::Fields::fields))]
    pub fn shared(&self, o: Operator, right: &Held) -> Held
        requires { faults_in (named o) (held self.now) (held right.now) ≡ false }
        ensures { held result ≡ pointwise (named o) (held self.now) (held right.now) }
    {
        let dom = self.dom.shared(right.dom);
        Held {
            cells: lanes(o, dom, &self.cells, &right.cells),
            dom,
        }
    }
}

// Whether the devices that two fields share have a divisor 0, by the operator's number in a table. A field is lent as its domain and its cells.
#[tactic(auto, using(crate::proofs::Fields::fields))]
pub fn faults_in(
    o: u8,
    left: Domain,
    xs: &[i32; DEVICES],
    right: Domain,
    ys: &[i32; DEVICES],
) -> bool
    ensures { result ≡ faults_in (operator_of o) (field_of left.bits xs.now) (field_of right.bits ys.now) }
{
    Operator::from(o) == Operator::Over && zero_in(left.shared(right), ys)
}

// That operator on two fields, lent likewise.
#[tactic(auto, using(crate::proofs::Fields::fields))]
pub fn shared(o: u8, left: Domain, xs: &[i32; DEVICES], right: Domain, ys: &[i32; DEVICES]) -> Held
    requires { faults_in (operator_of o) (field_of left.bits xs.now) (field_of right.bits ys.now) ≡ false }
    ensures { held result ≡ pointwise (operator_of o) (field_of left.bits xs.now) (field_of right.bits ys.now) }
{
    let dom = left.shared(right);
    Held {
        cells: lanes(Operator::from(o), dom, xs, ys),
        dom,
    }
}

// Whether a cell in the domain is 0. The walk is as long as the size says, which goes down with each device.
#[tactic(auto, using(arith::proofs::Signs::reads, crate::proofs::Laws::none_in), unfolding(crate::specs::Members::any_zero))]
fn zero_in(dom: Domain, ys: &[i32; DEVICES]) -> bool
    ensures { result ≡ any_zero (members dom.bits) ys.now }
{
    let mut left = dom;
    for _ in 0..dom.size() {
        let Some((k, rest)) = left.split_lowest() else {
            unreachable!()
        };
        if ys[k] == 0 {
            return true;
        }
        left = rest;
    }
    false
}

// The quotients in the domain, where no divisor is 0. The other cells are 0.
fn each_div(dom: Domain, xs: &[i32; DEVICES], ys: &[i32; DEVICES]) -> [i32; DEVICES]
    requires { any_zero (members dom.bits) ys.now ≡ false }
    ensures { (k : ℕ) → k < 16 → has_bit k dom.bits ≡ true → get_or result k (pos 0) ≡ over (get_or xs.now k (pos 0)) (get_or ys.now k (pos 0)) }
{
    let mut out = [0; DEVICES];
    for k in dom {
        out[k] = arith::div(xs[k], ys[k]);
    }
    out
}

// What `of` gives on all sixteen cells, in the domain or not: so the loop has no test.
fn each<F: Fn(i32, i32) -> i32>(of: F, xs: &[i32; DEVICES], ys: &[i32; DEVICES]) -> [i32; DEVICES]
    requires { F.IsAlwaysCallable of }
    ensures { (k : ℕ) → k < 16 → F.post of (get_or xs.now k (pos 0)) (get_or ys.now k (pos 0)) (get_or result k (pos 0)) }
{
    let mut out = [0; DEVICES];
    for k in 0..DEVICES {
        out[k] = of(xs[k], ys[k]);
    }
    out
}

// The cells of an operator on two fields that share the devices of dom. Those that are no comparison have a loop of their own, with no switch a cell.
#[tactic(auto, using(arith::proofs::Signs::reads), unfolding(number::specs::Number::operation_result))]
fn lanes(o: Operator, dom: Domain, xs: &[i32; DEVICES], ys: &[i32; DEVICES]) -> [i32; DEVICES]
    requires { o ≡ Operator.Over → any_zero (members dom.bits) ys.now ≡ false }
    ensures { (k : ℕ) → k < 16 → has_bit k dom.bits ≡ true → get_or result k (pos 0) ≡ operation_result (named o) (get_or xs.now k (pos 0)) (get_or ys.now k (pos 0)) }
{
    match o {
        Operator::Over => each_div(dom, xs, ys),
        Operator::Plus => each(arith::add, xs, ys),
        Operator::Minus => each(arith::sub, xs, ys),
        Operator::Times => each(arith::mul, xs, ys),
        _ => {
            let operate = |x: i32, y: i32| -> i32
                requires { o ≢ Operator.Over }
                ensures { result ≡ operation_result (named o) x y }
            { o.operate(x, y) };
            each(operate, xs, ys)
        }
    }
}
