// The lowest node that offends: by a parameter or variable that it may not read, by its use of a definition.
#![tactic(auto)]

ghost use Rattle.std.specs.Prelude.{◌≡◌, ◌<◌, ◌≤◌};
ghost use Rattle.program.specs.Table.{node_limit};
ghost use Rattle.words.specs.Word.{word};
ghost use Rattle.words.specs.Trees.{tree_at};
ghost use Rattle.operands.specs.Found.{place};
ghost use Rattle.operands.specs.Formed.{part as part_of};
ghost use Rattle.scopes.specs.Places.{lower};
ghost use Rattle.scopes.specs.Scope.{Lowest, misreads, own_place, inner, LowestMisread};
ghost use Rattle.scopes.specs.Uses.{offends, LowestUse};

use operands::{Words, is};
use shapes::Kind;
use unpack::{form_of, item_of};

// The kinds of node that name a definition, the highest but for one.
const FOLD_BY: u8 = Kind::FoldBy as u8;

const CALL: u8 = Kind::Call as u8;

// Whether a word reads what it may not, as one of a definition with so many parameters, under the reps of scope.
#[tactic(auto, unfolding(crate::specs::Scope::misreads))]
fn misreads(w: u64, count: u8, scope: u16) -> bool
    ensures { result ≡ misreads w count scope }
{
    if form_of(w) == unpack::PARAMETER {
        count <= item_of(w)
    } else {
        is(w, operands::READ) && (scope >> item_of(w)) % 2 == 0
    }
}

// The lower of `best` and node n, where its word misreads.
fn own(ws: Words<'_>, n: usize, count: u8, scope: u16, best: Option<usize>) -> Option<usize>
    requires { n < node_limit }
    ensures { place result ≡ lower (own_place n (word ws.entry.all.now n) count scope) (place best) }
{
    if misreads(ws.all[n], count, scope) {
        Some(n.min(best.unwrap_or(n)))
    } else {
        best
    }
}

// The scope of operand 1: the variable that the node binds more.
#[tactic(auto, using(crate::proofs::Walks::low_bit), unfolding(crate::specs::Scope::inner))]
fn inner(w: u64, scope: u16) -> u16
    ensures { result ≡ inner w scope }
{
    if is(w, operands::BIND) {
        scope | (1 << item_of(w))
    } else {
        scope
    }
}

// Each of the two: the lower of `best` and the lowest node that misreads. Operand 0 comes last, as a call that is a jump; a
// node that names none is looked at where it is named.
#[cycle(walking)]
fn part(
    ws: Words<'_>,
    n: usize,
    j: u32,
    count: u8,
    scope: u16,
    best: Option<usize>,
) -> Option<usize>
    requires { (n < node_limit) × (j < 4) }
    ensures { Lowest count scope (part_of ws.entry.all.now (word ws.entry.all.now n) j) best result }
{
    let Some(m) = ws.named(n, j) else {
        return best;
    };
    if is(ws.all[m], operands::ALONE) {
        return own(ws, m, count, scope, best);
    }
    walk(ws, m, count, scope, best)
}

// In the tree of node n. Called definitions are not entered.
#[cycle(walking)]
fn walk(ws: Words<'_>, n: usize, count: u8, scope: u16, best: Option<usize>) -> Option<usize>
    requires { n < node_limit }
    ensures { Lowest count scope (tree_at ws.entry.all.now n) best result }
{
    let r = own(ws, n, count, scope, best);
    let r = part(ws, n, 3, count, scope, r);
    let r = part(ws, n, 2, count, scope, r);
    let r = part(ws, n, 1, count, inner(ws.all[n], scope), r);
    part(ws, n, 0, count, scope, r)
}

// The lowest node that misreads, in main's tree and in those of the definitions.
pub fn misread_lowest(
    ws: Words<'_>,
    counts: &[u8; layout::NODES],
    bodies: &[u8; layout::NODES],
    definitions: usize,
    main: usize,
) -> Option<usize>
    requires { (definitions ≤ node_limit) × (main < node_limit) }
    ensures { LowestMisread ws.entry.all.now counts.now bodies.now definitions main result }
{
    if scope_pass::clean(ws, counts, bodies, definitions, main) {
        return None;
    }
    let mut r = None;
    for d in 0..definitions {
        r = walk(ws, usize::from(bodies[d]), counts[d], 0, r);
    }
    walk(ws, main, 0, 0, r)
}

// Whether a node of a kind offends by its use of a definition: a spatial one that a lower node calls already, a fold by a
// spatial one or one without two parameters.
#[tactic(auto, unfolding(crate::specs::Uses::offends))]
fn offends(kind: u8, spatial: bool, called: bool, count: u8) -> bool
    ensures { result ≡ offends kind spatial called count }
{
    if kind == CALL {
        spatial && called
    } else {
        kind == FOLD_BY && (spatial || count != 2)
    }
}

// The lowest node that offends by its use of a definition.
pub fn use_offends(
    kinds: &[u8; layout::NODES],
    items: &[u8; layout::NODES],
    counts: &[u8; layout::NODES],
    bodies: &[u8; layout::NODES],
    sp: &[bool; layout::NODES],
    count: usize,
) -> Option<usize>
    requires { count ≤ node_limit }
    ensures { LowestUse kinds.now items.now counts.now bodies.now sp.now count result }
{
    let mut called = [false; layout::NODES];
    for n in 0..count {
        let kind = kinds[n];
        if kind < FOLD_BY {
            continue;
        }
        let d = usize::from(items[n]);
        let b = usize::from(bodies[d]);
        if offends(kind, sp[b], called[d], counts[d]) {
            return Some(n);
        }
        called[d] |= kind == CALL;
    }
    None
}
