// The nine operators on numbers, each exactly as crate number has it.
#![tactic(auto)]

mod operator;

ghost use Rattle.std.specs.Prelude.{◌≡◌, ◌≢◌, false, pos};
ghost use Rattle.number.specs.Number.{operator_of, brought, plus, minus, times, over, operation_result, faults};

pub use operator::Operator;

const INF: i32 = i32::MAX;

const FLOOR: i32 = -i32::MAX;

// An exact result brought into floor..inf.
#[tactic(auto, using(crate::proofs::Signs::reads), unfolding(number::specs::Number::brought))]
fn bring(z: i64) -> i32
    ensures { result ≡ brought z }
{
    z.clamp(FLOOR as i64, INF as i64) as i32
}

// "+ with an inf is inf"
#[tactic(auto, using(crate::proofs::Signs::reads), unfolding(number::specs::Number::plus))]
pub fn add(x: i32, y: i32) -> i32
    ensures { result ≡ plus x y }
{
    if x == INF || y == INF {
        return INF;
    }
    bring(i64::from(x) + i64::from(y))
}

// "inf - n is inf; n - inf is floor for other n"
#[tactic(auto, using(crate::proofs::Signs::reads), unfolding(number::specs::Number::minus))]
pub fn sub(x: i32, y: i32) -> i32
    ensures { result ≡ minus x y }
{
    if x == INF { // inf - n
        INF
    } else if y == INF { // n - inf
        FLOOR
    } else {
        bring(i64::from(x) - i64::from(y))
    }
}

// × has no rule of its own for inf.
#[tactic(auto, using(crate::proofs::Signs::reads), unfolding(number::specs::Number::times))]
pub fn mul(x: i32, y: i32) -> i32
    ensures { result ≡ times x y }
{
    bring(i64::from(x) * i64::from(y))
}

// "inf / n is inf for n > 0, floor for n < 0; n / inf is 0 for other n. Division drops the fraction." The divisor is not 0.
#[tactic(auto, using(crate::proofs::Signs::reads), unfolding(number::specs::Number::over))]
pub fn div(x: i32, y: i32) -> i32
    requires { y ≢ pos 0 }
    ensures { result ≡ over x y }
{
    if x == INF { // inf / n
        if y > 0 { INF } else { FLOOR }
    } else if y == INF { // n / inf
        0
    } else {
        bring(i64::from(x) / i64::from(y))
    }
}

// Any operator but division, by the number that a table has for it.
#[tactic(auto, unfolding(number::specs::Number::operator_of))]
pub fn operate(o: u8, x: i32, y: i32) -> i32
    requires { o ≡ 3 → ⊥ }
    ensures { result ≡ operation_result (operator_of o) x y }
{
    Operator::from(o).operate(x, y)
}

// Whether that is a division by y = 0.
pub fn zero_divisor(o: u8, y: i32) -> bool
    ensures { result ≡ faults (operator_of o) y }
{
    Operator::from(o).zero_divisor(y)
}

// One that is no division by 0.
pub fn operate_any(o: u8, x: i32, y: i32) -> i32
    requires { faults (operator_of o) y ≡ false }
    ensures { result ≡ operation_result (operator_of o) x y }
{
    Operator::from(o).operate_any(x, y)
}
