// What a call comes to: a refusal with its place, and the verdict that C is handed, which holds both as numbers.
#![tactic(auto)]

ghost use Rattle.std.specs.Prelude.{◌≡◌};
ghost use Rattle.verdict.specs.Pair.{pair};
ghost use Rattle.verdict.specs.Outcome.{number_of, outcome, length_outcome};

// Why a program, a text, a network, a list or an event is refused. Each number is that of the header; 14 to 17 stand in answers alone.
#[derive(Clone, Copy, Debug, PartialEq, Eq)]
pub enum Reason {
    BadField = 1,
    TooMany = 2,
    OutOfRange = 3,
    NotGiven = 4,
    Taken = 5,
    BadEnd = 6,
    WrongSort = 7,
    Misread = 8,
    Misused = 9,
    TooCostly = 10,
    Unsound = 11,
    BadList = 12,
    ShortSpace = 13,
    BadItem = 14,
    Itself = 15,
    NothingPending = 16,
    DividedByZero = 17,
    BadFile = 18,
    Outside = 19,
    BadName = 20,
}

impl Reason {
    pub fn number(self) -> u32
        ensures { result ≡ number_of self }
    {
        self as u32
    }
}

// A refusal at its place: a field, a node, a cell, an event, a byte, or 0.
#[derive(Clone, Copy, Debug, PartialEq, Eq)]
pub struct Refusal {
    pub reason: Reason,
    pub place: usize,
}

// What C is handed. With number 0 the call did its work, and the place is 0, but for what reads a text: there it is the length of the table.
// Stays (a): numbers, in C's layout.
#[repr(C)]
#[derive(Drop)]
pub struct Verdict {
    pub number: u32,
    pub place: usize,
}

impl From<Result<(), Refusal>> for Verdict {
    ghost from_gives = { λ r v. pair v ≡ outcome r };

    fn from(done: Result<(), Refusal>) -> Verdict {
        Verdict::from(done.map(|()| 0usize))
    }
}

impl From<Result<usize, Refusal>> for Verdict {
    ghost from_gives = { λ r v. pair v ≡ length_outcome r };

    fn from(length: Result<usize, Refusal>) -> Verdict {
        match length {
            Ok(place) => Verdict { number: 0, place },
            Err(r) => Verdict {
                number: r.reason.number(),
                place: r.place,
            },
        }
    }
}
