// The operators by name.
ghost use Rattle.std.specs.Prelude.{◌≡◌, ◌≢◌, false};
ghost use Rattle.number.specs.Number.{operator_of, operation_result, faults};
ghost use Rattle.arith.specs.Named.{named};

use crate::{add, div, mul, sub};

// "Operators 0–8: + - × / < > >= == !="
#[derive(Clone, Copy, PartialEq, Eq)]
pub enum Operator {
    Plus,
    Minus,
    Times,
    Over,
    Less,
    More,
    AtLeast,
    Same,
    Differs,
}

// The operator that a table's number names.
impl From<u8> for Operator {
    ghost from_gives = { λ o r. named r ≡ operator_of o };

    #[tactic(auto, unfolding(number::specs::Number::operator_of))]
    fn from(o: u8) -> Operator {
        match o {
            0 => Operator::Plus,
            1 => Operator::Minus,
            2 => Operator::Times,
            3 => Operator::Over,
            4 => Operator::Less,
            5 => Operator::More,
            6 => Operator::AtLeast,
            7 => Operator::Same,
            _ => Operator::Differs,
        }
    }
}

impl Operator {
    // Any operator but division. It stands apart so that it is small enough to be put in place where it is called.
    #[tactic(auto, using(crate::proofs::Signs::reads), unfolding(number::specs::Number::operation_result))]
    pub fn operate(self, x: i32, y: i32) -> i32
        requires { self ≢ Operator.Over }
        ensures { result ≡ operation_result (named self) x y }
    {
        match self {
            Operator::Plus => add(x, y),
            Operator::Minus => sub(x, y),
            Operator::Times => mul(x, y),
            Operator::Over => unreachable!(),
            Operator::Less => i32::from(x < y),
            Operator::More => i32::from(y < x),
            Operator::AtLeast => i32::from(x >= y),
            Operator::Same => i32::from(x == y),
            Operator::Differs => i32::from(x != y),
        }
    }

    // Whether it is a division by y = 0.
    #[tactic(auto, using(crate::proofs::Signs::reads), unfolding(number::specs::Number::faults))]
    pub fn zero_divisor(self, y: i32) -> bool
        ensures { result ≡ faults (named self) y }
    {
        self == Operator::Over && y == 0
    }

    // An operator that is no division by 0.
    #[tactic(auto, using(crate::proofs::Signs::reads), unfolding(number::specs::Number::faults, number::specs::Number::operation_result))]
    pub fn operate_any(self, x: i32, y: i32) -> i32
        requires { faults (named self) y ≡ false }
        ensures { result ≡ operation_result (named self) x y }
    {
        if self == Operator::Over {
            div(x, y)
        } else {
            self.operate(x, y)
        }
    }
}
