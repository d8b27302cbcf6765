// What is given and taken already: nodes that are named, slots and variables that a node has.
#![tactic(auto)]

ghost use Rattle.std.specs.Prelude.{◌≡◌, ◌≤◌, length};
ghost use Rattle.shapes.specs.Shapes.{byte_values};
ghost use Rattle.program.specs.Table.{node_limit};
ghost use Rattle.taken.specs.Taken.{untaken, Takes, TakesKids};

use verdict::Reason;

// Takes a number, unless it was taken already. Any byte may be asked for: a slot, a variable, and a node as long as its number is a byte.
pub fn take(k: u8, marks: &mut [bool; layout::BYTES]) -> Result<(), Reason>
    requires { length marks.old ≡ byte_values }
    ensures { Takes k marks.old result marks.new }
{
    let mark = &mut marks[usize::from(k)];
    if *mark {
        return Err(Reason::Taken);
    }
    *mark = true;
    Ok(())
}

// The rows of a node's children, which are taken: each is one of the n nodes that are given, and none was taken already or stands twice.
pub fn children(ks: &[u8], n: usize, named: &mut [bool; layout::NODES]) -> Result<(), Reason>
    requires { length named.old ≡ node_limit }
    ensures { TakesKids ks.now n named.old result named.new }
{
    if ks.iter().any(|k| n <= usize::from(*k)) {
        return Err(Reason::NotGiven);
    }
    for k in ks {
        take(*k, named)?;
    }
    Ok(())
}

// Whether some node below n is not taken.
pub fn any_untaken(named: &[bool; layout::NODES], n: usize) -> bool
    requires { n ≤ node_limit }
    ensures { result ≡ untaken n named.now }
{
    named[..n].iter().any(|taken| !*taken)
}
