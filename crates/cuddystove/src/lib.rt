// The calls from outside. Each is thin over the crate that does its work.
#![tactic(auto)]

ghost use Rattle.std.specs.Prelude.{◌≡◌};
ghost use Rattle.program.specs.Check.{check};
ghost use Rattle.network.specs.Network.{fresh_call};
ghost use Rattle.event.specs.Calls.{one_event, run};
ghost use Rattle.translation.specs.Reads.{Reads};
ghost use Rattle.verdict.specs.Pair.{pair};
ghost use Rattle.calls.specs.Carried.{result_of};
ghost use Rattle.both.specs.Both.{Both, first, second};

// Checks a program table: 0 and 0, or the refusal and its place.
pub fn cuddystove_check(program: &[u8]) -> verdict::Verdict
    ensures { pair result ≡ check program.now }
{
    verdict::Verdict::from(program_check::check(program))
}

// Reads a program's text; its table starts the slice: 0 and its length, or the refusal and its place.
pub fn cuddystove_read_text(text: &[u8], table: &mut [u8]) -> verdict::Verdict
    ensures { Reads text.now table.old (pair result) table.new }
{
    verdict::Verdict::from(texts::read_text(text, table))
}

// Makes a network fresh; 11 and 0 where its length is wrong.
pub fn cuddystove_fresh(network: &mut [i32]) -> verdict::Verdict
    ensures { (pair result, network.new) ≡ fresh_call network.old }
{
    verdict::Verdict::from(fresh::fresh(network))
}

// Does one event, that of a list of exactly one field.
pub fn cuddystove_event(
    program: &[u8],
    network: &mut [i32],
    list: &[u8],
    space: &mut [i32],
) -> verdict::Verdict
    ensures { result_of result network.new space.new ≡ one_event program.now network.old list.now space.old }
{
    verdict::Verdict::from(calls::event(program, network, list, space))
}

// Does every event of a list, from first to last.
pub fn cuddystove_run(
    program: &[u8],
    network: &mut [i32],
    list: &[u8],
    space: &mut [i32],
) -> verdict::Verdict
    ensures { result_of result network.new space.new ≡ run program.now network.old list.now space.old }
{
    verdict::Verdict::from(calls::run(program, network, list, space))
}

// Runs two orders of the same events, each on a network of its own.
pub fn cuddystove_run_both(
    program: &[u8],
    network1: &mut [i32],
    network2: &mut [i32],
    list1: &[u8],
    list2: &[u8],
    space1: &mut [i32],
    space2: &mut [i32],
) -> both::Verdicts
    ensures { Both program.now network1.old network2.old list1.now list2.now space1.old space2.old
        (first result network1.new space1.new) (second result network2.new space2.new) }
{
    both::run_both(program, network1, network2, list1, list2, space1, space2)
}
