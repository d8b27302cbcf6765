// A node's own work: what it does once its operands are there.
//
// The state, `st`: from cell 0 on the variables, from SENT on what is sent in each slot, at FAULT the fault: 0, or one more than the node that divided by 0.
#![tactic(auto)]

ghost use Rattle.std.specs.Prelude.{◌≡◌, ◌+◌, ◌<◌, pos, length};
ghost use Rattle.number.specs.Number.{div, operator_of};
ghost use Rattle.domain.specs.Held.{held};
ghost use Rattle.domain.specs.Members.{places};
ghost use Rattle.round.specs.Round.{State, number, done, on_numbers, on_fields, folded, is_true, sensed};
ghost use Rattle.words.specs.Word.{node_numbers};
ghost use Rattle.apply.specs.State.{state_of, fault_of, Gives, GivesField, Walks, Erases, lessens};

use arith::Operator;
use domain::{Domain, Held};
use layout::{FAULT, MARK, STATE};

// What a walk over a domain comes to, and how many turns its loop took.
#[derive(Drop)]
pub struct Walk {
    pub value: i32,
    pub turns: u32,
}

// Node n divided by 0. The 0 that comes back stands for no value.
fn fault(st: &mut [i32; STATE], n: u16) -> i32
    requires { n < node_numbers }
    ensures { fault_of st.new ≡ pos (n + 1) }
{
    st[FAULT] = i32::from(n) + 1;
    0
}

// Node n's division of two numbers.
#[tactic(auto, using(crate::proofs::Laws::outcomes), unfolding(number::specs::Number::faults, number::specs::Number::operation_result))]
fn divide(st: &mut [i32; STATE], n: u16, x: i32, y: i32) -> i32
    requires { (n < node_numbers) × (fault_of st.old ≡ pos 0) }
    ensures { Gives (on_numbers n div x y (state_of st.old)) result st.new }
{
    if y == 0 {
        fault(st, n)
    } else {
        arith::div(x, y)
    }
}

// Node n's operator on two numbers. Division stands apart, so that the rest is small enough to be put in place where it is called.
#[tactic(auto, using(crate::proofs::Laws::outcomes), unfolding(number::specs::Number::faults, number::specs::Number::operation_result))]
pub fn number_op(st: &mut [i32; STATE], n: u16, o: u8, x: i32, y: i32) -> i32
    requires { (n < node_numbers) × (fault_of st.old ≡ pos 0) }
    ensures { Gives (on_numbers n (operator_of o) x y (state_of st.old)) result st.new }
{
    let operator = Operator::from(o);
    if operator == Operator::Over {
        divide(st, n, x, y)
    } else {
        operator.operate(x, y)
    }
}

// And on two fields.
pub fn field_op(st: &mut [i32; STATE], n: u16, o: u8, left: &Held, right: &Held) -> Held
    requires { (n < node_numbers) × (fault_of st.old ≡ pos 0) }
    ensures { GivesField (on_fields n (operator_of o) (held left.now) (held right.now) (state_of st.old)) result st.new }
{
    let operator = Operator::from(o);
    if left.faults_in(operator, right) {
        fault(st, n);
        return Held::no_field();
    }
    left.shared(operator, right)
}

// And folded over a field, lowest device first: a turn for each device.
pub fn fold_op(st: &mut [i32; STATE], n: u16, o: u8, from: i32, field: &Held) -> Walk
    requires { (n < node_numbers) × (fault_of st.old ≡ pos 0) }
    ensures { Walks (λ x y s. on_numbers n (operator_of o) x y s) (held field.now) from (state_of st.old) result st.new }
{
    let operator = Operator::from(o);
    let mut value = from;
    let mut turns = 0;
    for k in field.dom {
        turns += 1;
        let y = field.cells[k];
        if operator.zero_divisor(y) {
            return Walk {
                value: fault(st, n),
                turns,
            };
        }
        value = operator.operate_any(value, y);
    }
    Walk { value, turns }
}

// The least of a number and a field's: what folding comes to by a definition that gives the lesser of two.
pub fn fold_least(from: i32, field: &Held) -> Walk
    ensures { ((s : State) → folded lessens (held field.now) from s ≡ done (number result.value) s)
        × (result.turns ≡ length (places (held field.now))) }
{
    let mut least = from;
    let mut count = 0;
    for j in field.dom {
        count += 1;
        least = least.min(field.cells[j]);
    }
    Walk {
        value: least,
        turns: count,
    }
}

// Whether a condition takes the first branch: "condition 1 takes then, all else takes else". Stays (d): it says this rule in one place.
pub fn is_true(x: i32) -> bool
    ensures { result ≡ is_true x }
{
    x == 1
}

// Whether sensor s is lit.
#[tactic(auto, using(arith::proofs::Signs::reads), unfolding(round::specs::Round::sensed))]
pub fn lit_of(sensors: i32, s: i32) -> i32
    ensures { result ≡ sensed sensors s }
{
    if sensors < 0 || s < 0 || s > 15 {
        return 0;
    }
    (((sensors as u32) >> (s as u32)) % 2) as i32
}

// The variables of a mask made absent: its bits are walked as a domain's.
pub fn erase(st: &mut [i32; STATE], mask: u16)
    ensures { Erases mask st.old st.new }
{
    let variables = Domain { bits: mask };
    for v in variables {
        st[v] = MARK;
    }
}
