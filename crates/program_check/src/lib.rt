// The whole check of a program table, refusals 1 to 10, and its preparation for rounds: its words and masks.
#![tactic(auto)]

ghost use Rattle.std.specs.Prelude.{◌≡◌, ◌<◌, ◌≤◌};
ghost use Rattle.program.specs.Table.{node_limit};
ghost use Rattle.shapes.specs.Shapes.{byte_values};
ghost use Rattle.program.specs.Check.{check as checkOf};
ghost use Rattle.verdict.specs.Outcome.{outcome};
ghost use Rattle.load.specs.Loads.{Good};
ghost use Rattle.program_check.specs.Prepares.{Checks, Prepares};
ghost use Rattle.program_check.specs.TreeRows.{Above, LowestMisuse, TreeRows, refused};

use operands::Words;
use verdict::{Reason, Refusal};

// A table that passed: its main node, and how many nodes there are.
#[derive(Drop)]
struct Checked {
    main: u16,
    n: usize,
}

// One above the highest body.
fn top_of(bodies: &[u8; layout::BYTES], defs: usize) -> usize
    requires { defs ≤ byte_values }
    ensures { Above bodies.now defs result }
{
    let mut top: usize = 0;
    for d in 0..defs {
        top = top.max(usize::from(bodies[d]) + 1);
    }
    top
}

// Refusal 9: the lowest node that offends by its use of a definition. Only of bodies it asks whether they are spatial.
fn uses(
    ws: Words<'_>,
    kinds: &[u8; layout::NODES],
    items: &[u8; layout::NODES],
    counts: &[u8; layout::BYTES],
    bodies: &[u8; layout::BYTES],
    defs: usize,
    n: usize,
) -> Option<usize>
    requires { (defs ≤ byte_values) × (n ≤ node_limit) }
    ensures { LowestMisuse ws.entry.all.now kinds.now items.now counts.now bodies.now defs n result }
{
    let mut sp = [false; layout::NODES];
    spatial::make_spatial(ws, &mut sp, top_of(bodies, defs));
    scopes::use_offends(kinds, items, counts, bodies, &sp, n)
}

// Refused at its place.
fn refuse(reason: Reason, place: usize) -> Result<(), Refusal>
    ensures { result ≡ refused reason place }
{
    Err(Refusal { reason, place })
}

// Refusals 7 to 10 of a loaded table, and its words.
fn tree_rows(t: load::Table, ws: &mut [u64; layout::NODES]) -> Result<(), Refusal>
    requires good { Good t }
    requires main { t.main < t.n }
    ensures { TreeRows t ws.new result }
{
    let mut kinds = [0; layout::NODES];
    let mut items = [0; layout::NODES];
    if let Some(n) = pack::pack(t, ws, &mut kinds, &mut items) {
        return refuse(Reason::WrongSort, usize::from(n));
    }
    let words = Words { all: ws };
    if let Some(n) = scopes::misread_lowest(words, &t.counts, &t.bodies, t.defs, t.main as usize) {
        return refuse(Reason::Misread, n);
    }
    if let Some(n) = uses(words, &kinds, &items, &t.counts, &t.bodies, t.defs, t.n) {
        return refuse(Reason::Misused, n);
    }
    if costs::main_cost(words, t.main as u16) > costs::LIMIT {
        return refuse(Reason::TooCostly, 0);
    }
    Ok(())
}

// What the check comes to. Where it passes, it leaves the table's words.
fn examine(s: &[u8], ws: &mut [u64; layout::NODES]) -> Result<Checked, Refusal>
    ensures { Checks s.now result ws.new }
{
    let t = load::load(s)?;
    tree_rows(t, ws)?;
    Ok(Checked {
        main: t.main as u16,
        n: t.n,
    })
}

// The check alone.
pub fn check(s: &[u8]) -> Result<(), Refusal>
    ensures { outcome result ≡ checkOf s.now }
{
    let mut ws = [0; layout::NODES];
    examine(s, &mut ws)?;
    Ok(())
}

// Checks a table, and prepares it where it is accepted: its main node.
pub fn prepare(
    s: &[u8],
    ws: &mut [u64; layout::NODES],
    us: &mut [u16; layout::NODES],
) -> Result<u16, Refusal>
    ensures { Prepares s.now result ws.new us.new }
{
    let Checked { main, n } = examine(s, ws)?;
    rep_masks::make_masks(Words { all: ws }, us, n);
    quick::quicken(ws, n); // the check's passes do not know the quick forms
    Ok(main)
}
