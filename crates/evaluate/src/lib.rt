// The evaluator of one round. Its functions call each other, so what they take is whole numbers and references to arrays, mostly in registers; a field is returned by value.
//
// `t`: a word a node. `u`: the variables of the reps under each node. `here`: what the round reads, the device's cells but its messages, with the ages where those begin.
// `st`: the state (crate apply). `env`: the parameters. `n`: the node.
#![tactic(auto)]

ghost use Rattle.std.specs.Prelude.{◌≡◌, ◌%◌, ◌<◌, ◌≤◌, pos};
ghost use Rattle.domain.specs.Held.{held};
ghost use Rattle.heard.specs.Measures.{cells_from};
ghost use Rattle.round.specs.Round.{field, done, arguments, measured, sending, eval};
ghost use Rattle.words.specs.Form.{operator_form, sense_form, rep_form, if_form, mux_form, call_form, nbr_form, field_if_form, leaf_forms};
ghost use Rattle.words.specs.Word.{form, count, word};
ghost use Rattle.apply.specs.State.{state_of, fault_of, Gives, GivesField, GivesSide, Walks};
ghost use Rattle.words.specs.Trees.{tree_at, arg_of};
ghost use Rattle.leaf.specs.Asked.{Number, IsField, Argument, Inside, Folding, third_on};

use apply::Walk;
use domain::Held;
use heard::Measure;
use layout::{FAULT, MARK, NODES, OWN, SENSORS, SENT, STATE};
use unpack::{
    CALL, FIELD_IF, FIELD_OPERATOR, FIELDS, FOLD_BY, IF, LAG, LEAST, LEAVES, MUX, NBR, OPERATOR,
    PAIR, REP, SENSE,
};

// A node that gives a number: a leaf in place, any other by its own walk. number_at has the forms that three divides: operator, if, call, pair.
#[cycle(evaluator)]
fn operand(
    t: &[u64; NODES],
    u: &[u16; NODES],
    here: &[i32; OWN],
    st: &mut [i32; STATE],
    env: &[i32; 4],
    n: u16,
) -> i32
    requires { Number t.now u.now st.old n }
    ensures { Gives (eval here.now (tree_at t.now n) env.now (state_of st.old)) result st.new }
{
    let form = unpack::form_of(t[n as usize]);
    if form < LEAVES {
        return leaf::leaf(t, &*st, env, n);
    }
    if form % 3 != 0 {
        return other_at(t, u, here, st, env, n);
    }
    number_at(t, u, here, st, env, n)
}

// The forms that arithmetic is made of, and calls; the others are in `other_at`.
#[cycle(evaluator)]
fn number_at(
    t: &[u64; NODES],
    u: &[u16; NODES],
    here: &[i32; OWN],
    st: &mut [i32; STATE],
    env: &[i32; 4],
    n: u16,
) -> i32
    requires { Number t.now u.now st.old n }
    ensures { Gives (eval here.now (tree_at t.now n) env.now (state_of st.old)) result st.new }
{
    let w = t[n as usize];
    let form = unpack::form_of(w);
    match form {
        OPERATOR => operator_at(t, u, here, st, env, n),
        IF => if_at(t, u, here, st, env, n),
        CALL => call_at(t, u, here, st, env, n),
        PAIR => leaf::pair(t, st, env, n),
        _ => {
            if form < LEAVES {
                return leaf::leaf(t, &*st, env, n);
            }
            other_at(t, u, here, st, env, n)
        }
    }
}

// A side of an operator on numbers.
#[cycle(evaluator)]
fn number_side(
    t: &[u64; NODES],
    u: &[u16; NODES],
    here: &[i32; OWN],
    st: &mut [i32; STATE],
    env: &[i32; 4],
    n: u16,
) -> i32
    requires { Number t.now u.now st.old n }
    ensures { Gives (eval here.now (tree_at t.now n) env.now (state_of st.old)) result st.new }
{
    if unpack::form_of(t[n as usize]) < LEAVES {
        return leaf::leaf(t, &*st, env, n);
    }
    number_at(t, u, here, st, env, n)
}

// An operator on two numbers.
#[cycle(evaluator)]
fn operator_at(
    t: &[u64; NODES],
    u: &[u16; NODES],
    here: &[i32; OWN],
    st: &mut [i32; STATE],
    env: &[i32; 4],
    n: u16,
) -> i32
    requires { Number t.now u.now st.old n × (form (word t.now n) ≡ operator_form) }
    ensures { Gives (eval here.now (tree_at t.now n) env.now (state_of st.old)) result st.new }
{
    let w = t[n as usize];
    let x = number_side(t, u, here, st, env, unpack::first(w));
    if st[FAULT] != 0 {
        return 0;
    }
    let y = number_side(t, u, here, st, env, unpack::second(w));
    if st[FAULT] != 0 {
        return 0;
    }
    apply::number_op(st, n, unpack::item_of(w), x, y)
}

// An if: the variables of the other branch are erased, then one branch is evaluated.
#[cycle(evaluator)]
fn if_at(
    t: &[u64; NODES],
    u: &[u16; NODES],
    here: &[i32; OWN],
    st: &mut [i32; STATE],
    env: &[i32; 4],
    n: u16,
) -> i32
    requires { Number t.now u.now st.old n × (form (word t.now n) ≡ if_form) }
    ensures { Gives (eval here.now (tree_at t.now n) env.now (state_of st.old)) result st.new }
{
    let w = t[n as usize];
    let x = operand(t, u, here, st, env, unpack::first(w));
    if st[FAULT] != 0 {
        return 0;
    }
    let a = unpack::second(w);
    let b = unpack::third(w);
    if apply::is_true(x) {
        apply::erase(st, u[b as usize]);
        operand(t, u, here, st, env, a)
    } else {
        apply::erase(st, u[a as usize]);
        operand(t, u, here, st, env, b)
    }
}

// A call: the arguments that there are, then the body.
#[cycle(evaluator)]
fn call_at(
    t: &[u64; NODES],
    u: &[u16; NODES],
    here: &[i32; OWN],
    st: &mut [i32; STATE],
    env: &[i32; 4],
    n: u16,
) -> i32
    requires { Number t.now u.now st.old n × (form (word t.now n) ≡ call_form) }
    ensures { Gives (eval here.now (tree_at t.now n) env.now (state_of st.old)) result st.new }
{
    let w = t[n as usize];
    let k = unpack::count_of(w);
    let e = unpack::body_of(w);
    if k == 0 {
        return call(t, u, here, st, n, e, 0, 0, 0, 0);
    }
    let a = operand(t, u, here, st, env, unpack::first(w));
    if st[FAULT] != 0 {
        return 0;
    }
    if k == 1 {
        return call(t, u, here, st, n, e, a, 0, 0, 0);
    }
    let b = operand(t, u, here, st, env, unpack::second(w));
    if st[FAULT] != 0 {
        return 0;
    }
    if k == 2 {
        return call(t, u, here, st, n, e, a, b, 0, 0);
    }
    more_at(t, u, here, st, env, n, a, b)
}

// The third argument of a call, the fourth where there is one, then the body; a and b are the first two.
#[cycle(evaluator)]
fn more_at(
    t: &[u64; NODES],
    u: &[u16; NODES],
    here: &[i32; OWN],
    st: &mut [i32; STATE],
    env: &[i32; 4],
    n: u16,
    a: i32,
    b: i32,
) -> i32
    requires { Number t.now u.now st.old n × (form (word t.now n) ≡ call_form) × (2 < count (word t.now n)) }
    ensures { Gives (third_on t.now n here.now env.now a b (state_of st.old)) result st.new }
{
    let w = t[n as usize];
    let c = operand(t, u, here, st, env, unpack::third(w));
    if st[FAULT] != 0 {
        return 0;
    }
    let d = argument(
        t,
        u,
        here,
        st,
        env,
        unpack::count_of(w) > 3,
        unpack::fourth(w),
    );
    if st[FAULT] != 0 {
        return 0;
    }
    call(t, u, here, st, n, unpack::body_of(w), a, b, c, d)
}

// An argument of a call, 0 where the definition has fewer.
#[cycle(evaluator)]
fn argument(
    t: &[u64; NODES],
    u: &[u16; NODES],
    here: &[i32; OWN],
    st: &mut [i32; STATE],
    env: &[i32; 4],
    there: bool,
    n: u16,
) -> i32
    requires { Argument t.now u.now st.old there n }
    ensures { Gives (eval here.now (arg_of t.now there n) env.now (state_of st.old)) result st.new }
{
    if there {
        operand(t, u, here, st, env, n)
    } else {
        0
    }
}

// A definition's body, below the node n that calls it.
#[cycle(evaluator)]
fn call(
    t: &[u64; NODES],
    u: &[u16; NODES],
    here: &[i32; OWN],
    st: &mut [i32; STATE],
    n: u16,
    e: u16,
    a: i32,
    b: i32,
    c: i32,
    d: i32,
) -> i32
    requires { (Number t.now u.now st.old e) × (e < n) }
    ensures { Gives (eval here.now (tree_at t.now e) (arguments a b c d) (state_of st.old)) result st.new }
{
    let env = [a, b, c, d];
    number_at(t, u, here, st, &env, e)
}

// The other forms that give a number: those that are no leaf and that three does not divide.
#[cycle(evaluator)]
fn other_at(
    t: &[u64; NODES],
    u: &[u16; NODES],
    here: &[i32; OWN],
    st: &mut [i32; STATE],
    env: &[i32; 4],
    n: u16,
) -> i32
    requires { Number t.now u.now st.old n × (leaf_forms ≤ form (word t.now n)) × (form (word t.now n) % 3 ≡ 0 → ⊥) }
    ensures { Gives (eval here.now (tree_at t.now n) env.now (state_of st.old)) result st.new }
{
    let form = unpack::form_of(t[n as usize]);
    match form {
        SENSE => sense_at(t, u, here, st, env, n),
        REP => rep_at(t, u, here, st, env, n),
        MUX => mux_at(t, u, here, st, env, n),
        _ => fold_at(t, u, here, st, env, n),
    }
}

// A sense: whether the sensor that its operand names is lit.
#[cycle(evaluator)]
fn sense_at(
    t: &[u64; NODES],
    u: &[u16; NODES],
    here: &[i32; OWN],
    st: &mut [i32; STATE],
    env: &[i32; 4],
    n: u16,
) -> i32
    requires { Number t.now u.now st.old n × (form (word t.now n) ≡ sense_form) }
    ensures { Gives (eval here.now (tree_at t.now n) env.now (state_of st.old)) result st.new }
{
    let w = t[n as usize];
    let s = operand(t, u, here, st, env, unpack::first(w));
    if st[FAULT] != 0 {
        return 0;
    }
    apply::lit_of(here[SENSORS], s)
}

// A rep: the initial part, and where its variable was there, the update.
#[cycle(evaluator)]
fn rep_at(
    t: &[u64; NODES],
    u: &[u16; NODES],
    here: &[i32; OWN],
    st: &mut [i32; STATE],
    env: &[i32; 4],
    n: u16,
) -> i32
    requires { Number t.now u.now st.old n × (form (word t.now n) ≡ rep_form) }
    ensures { Gives (eval here.now (tree_at t.now n) env.now (state_of st.old)) result st.new }
{
    let w = t[n as usize];
    let v = unpack::item_of(w) as usize;
    let x = operand(t, u, here, st, env, unpack::first(w));
    if st[FAULT] != 0 {
        return 0;
    }
    let old = st[v];
    if old == MARK {
        st[v] = x;
        return x;
    }
    let y = operand(t, u, here, st, env, unpack::second(w));
    if st[FAULT] != 0 {
        return 0;
    }
    st[v] = y;
    y
}

// A mux: both branches are evaluated, then the condition.
#[cycle(evaluator)]
fn mux_at(
    t: &[u64; NODES],
    u: &[u16; NODES],
    here: &[i32; OWN],
    st: &mut [i32; STATE],
    env: &[i32; 4],
    n: u16,
) -> i32
    requires { Number t.now u.now st.old n × (form (word t.now n) ≡ mux_form) }
    ensures { Gives (eval here.now (tree_at t.now n) env.now (state_of st.old)) result st.new }
{
    let w = t[n as usize];
    let y = operand(t, u, here, st, env, unpack::second(w));
    if st[FAULT] != 0 {
        return 0;
    }
    let z = operand(t, u, here, st, env, unpack::third(w));
    if st[FAULT] != 0 {
        return 0;
    }
    let x = operand(t, u, here, st, env, unpack::first(w));
    if st[FAULT] != 0 {
        return 0;
    }
    if apply::is_true(x) { y } else { z }
}

// A fold: from its first operand, over the field of its second; by the lesser, by a definition or by an operator.
#[cycle(evaluator)]
fn fold_at(
    t: &[u64; NODES],
    u: &[u16; NODES],
    here: &[i32; OWN],
    st: &mut [i32; STATE],
    env: &[i32; 4],
    n: u16,
) -> i32
    requires { Number t.now u.now st.old n × Folding (form (word t.now n)) }
    ensures { Gives (eval here.now (tree_at t.now n) env.now (state_of st.old)) result st.new }
{
    let w = t[n as usize];
    let x = operand(t, u, here, st, env, unpack::first(w));
    if st[FAULT] != 0 {
        return 0;
    }
    let f = field_at(t, u, here, st, env, unpack::second(w));
    if st[FAULT] != 0 {
        return 0;
    }
    let form = unpack::form_of(w);
    if form == LEAST {
        return apply::fold_least(x, &f).value;
    }
    if form == FOLD_BY {
        return fold_by(t, u, here, st, n, unpack::body_of(w), x, &f).value;
    }
    apply::fold_op(st, n, unpack::item_of(w), x, &f).value
}

// A field folded by a definition, lowest device first: a turn for each device.
#[cycle(evaluator)]
fn fold_by(
    t: &[u64; NODES],
    u: &[u16; NODES],
    here: &[i32; OWN],
    st: &mut [i32; STATE],
    n: u16,
    e: u16,
    from: i32,
    field: &Held,
) -> Walk
    requires { (Number t.now u.now st.old e) × (e < n) }
    ensures { Walks (λ x y s. eval here.now (tree_at t.now e) (arguments x y (pos 0) (pos 0)) s) (held field.now) from (state_of st.old) result st.new }
{
    let mut value = from;
    let mut turns = 0;
    for k in field.dom {
        turns += 1;
        value = call(t, u, here, st, n, e, value, field.cells[k], 0, 0);
        if st[FAULT] != 0 {
            return Walk { value: 0, turns };
        }
    }
    Walk { value, turns }
}

// A node that gives a field. An operator is done in place: a function of its own would take more stack a level.
#[cycle(evaluator)]
fn field_at(
    t: &[u64; NODES],
    u: &[u16; NODES],
    here: &[i32; OWN],
    st: &mut [i32; STATE],
    env: &[i32; 4],
    n: u16,
) -> Held
    requires { IsField t.now u.now st.old n }
    ensures { GivesField (eval here.now (tree_at t.now n) env.now (state_of st.old)) result st.new }
{
    let w = t[n as usize];
    let form = unpack::form_of(w);
    match form {
        NBR => nbr_at(t, u, here, st, env, n),
        FIELD_IF => field_if_at(t, u, here, st, env, n),
        FIELD_OPERATOR => {
            let l = field_side(t, u, here, st, env, unpack::first(w));
            if st[FAULT] != 0 {
                return Held::no_field();
            }
            let r = field_side(t, u, here, st, env, unpack::second(w));
            if st[FAULT] != 0 {
                return Held::no_field();
            }
            apply::field_op(st, n, unpack::item_of(w), &l, &r)
        }
        _ => {
            // Stays (b): one arm takes both, so that the call stands once and is compiled in place (DECISIONS, C18).
            let measure = if form == LAG {
                Measure::AGE
            } else {
                Measure::DISTANCE
            };
            measured_at(here, st, unpack::item_of(w) as usize, measure)
        }
    }
}

// An nbr: its operand's value is sent, and the field is what was heard.
#[cycle(evaluator)]
fn nbr_at(
    t: &[u64; NODES],
    u: &[u16; NODES],
    here: &[i32; OWN],
    st: &mut [i32; STATE],
    env: &[i32; 4],
    n: u16,
) -> Held
    requires { IsField t.now u.now st.old n × (form (word t.now n) ≡ nbr_form) }
    ensures { GivesField (eval here.now (tree_at t.now n) env.now (state_of st.old)) result st.new }
{
    let w = t[n as usize];
    let x = operand(t, u, here, st, env, unpack::first(w));
    if st[FAULT] != 0 {
        return Held::no_field();
    }
    let slot = unpack::item_of(w) as usize;
    st[SENT + slot] = x;
    heard::heard_of(here, slot)
}

// An if that gives a field.
#[cycle(evaluator)]
fn field_if_at(
    t: &[u64; NODES],
    u: &[u16; NODES],
    here: &[i32; OWN],
    st: &mut [i32; STATE],
    env: &[i32; 4],
    n: u16,
) -> Held
    requires { IsField t.now u.now st.old n × (form (word t.now n) ≡ field_if_form) }
    ensures { GivesField (eval here.now (tree_at t.now n) env.now (state_of st.old)) result st.new }
{
    let w = t[n as usize];
    let x = operand(t, u, here, st, env, unpack::first(w));
    if st[FAULT] != 0 {
        return Held::no_field();
    }
    let a = unpack::second(w);
    let b = unpack::third(w);
    if apply::is_true(x) {
        apply::erase(st, u[b as usize]);
        field_at(t, u, here, st, env, a)
    } else {
        apply::erase(st, u[a as usize]);
        field_at(t, u, here, st, env, b)
    }
}

// A side of an operator that gives a field: a number is at each device.
#[cycle(evaluator)]
fn field_side(
    t: &[u64; NODES],
    u: &[u16; NODES],
    here: &[i32; OWN],
    st: &mut [i32; STATE],
    env: &[i32; 4],
    n: u16,
) -> Held
    requires { Inside t.now u.now st.old n }
    ensures { GivesSide (eval here.now (tree_at t.now n) env.now (state_of st.old)) (form (word t.now n)) result st.new }
{
    if unpack::form_of(t[n as usize]) >= FIELDS {
        return field_at(t, u, here, st, env, n);
    }
    let v = number_side(t, u, here, st, env, n);
    Held::spread(v)
}

// An nbr-range or an nbr-lag: 0 is sent, and the field is the measure of those heard with 0.
fn measured_at(here: &[i32; OWN], st: &mut [i32; STATE], slot: usize, measure: Measure) -> Held
    requires { (slot < 16) × (fault_of st.old ≡ pos 0) }
    ensures { GivesField (done (field (measured (cells_from measure.from measure.by) here.now slot)) (sending slot (pos 0) (state_of st.old))) result st.new }
{
    st[SENT + slot] = 0;
    heard::measured(here, slot, measure)
}

// Node main of a sound table, where the round reads the cells `here`, with no parameters.
pub fn evaluate(
    t: &[u64; NODES],
    u: &[u16; NODES],
    here: &[i32; OWN],
    st: &mut [i32; STATE],
    main: u16,
) -> i32
    requires { Number t.now u.now st.old main }
    ensures { Gives (eval here.now (tree_at t.now main) (arguments (pos 0) (pos 0) (pos 0) (pos 0)) (state_of st.old)) result st.new }
{
    operand(t, u, here, st, &[0; 4], main)
}
