// Two orders of one shift, run side by side: the contract is demand 3 of what they leave.
#![tactic(auto)]

ghost use Rattle.both.specs.Both.{Both, first, second};

use verdict::Verdict;

// What the two runs returned.
#[repr(C)]
#[derive(Drop)]
pub struct Verdicts {
    pub number1: u32,
    pub place1: usize,
    pub number2: u32,
    pub place2: usize,
}

// Runs the program's events on both networks, each with its own order and its own answer space.
pub fn run_both(
    program: &[u8],
    network1: &mut [i32],
    network2: &mut [i32],
    list1: &[u8],
    list2: &[u8],
    space1: &mut [i32],
    space2: &mut [i32],
) -> Verdicts
    ensures { Both program.now network1.old network2.old list1.now list2.now space1.old space2.old
        (first result network1.new space1.new) (second result network2.new space2.new) }
{
    let first = Verdict::from(calls::run(program, network1, list1, space1));
    let second = Verdict::from(calls::run(program, network2, list2, space2));
    Verdicts {
        number1: first.number,
        place1: first.place,
        number2: second.number,
        place2: second.place,
    }
}
