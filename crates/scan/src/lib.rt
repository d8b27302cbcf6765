// The network's soundness test. Devices, rows and slots are counted from 0 here.
#![tactic(auto)]

ghost use Rattle.std.specs.Prelude.{◌≡◌, true, ◌+◌, ◌*◌, ◌<◌, length};
ghost use Rattle.verdict.specs.Outcome.{outcome};
ghost use Rattle.network.specs.Cells.{row};
ghost use Rattle.network.specs.Network.{pending_at, block_size, lowest_unsound, soundness};
ghost use Rattle.scan.specs.Pass.{SoundBelow, row_cell, RowsAre, Pending, PendingRows, Heard, HeardRows, OwnRows, place_of};

use cell_rules::row_of;
use verdict::{Reason, Refusal};

// Cells of two rows.
const PAIR: usize = 2 * layout::ROW;

// Cell i of a row whose first cell is `first` and whose slots are absent.
fn wanted(first: i32, i: usize) -> i32
    ensures { result ≡ row_cell first i }
{
    if i == 0 { first } else { layout::MARK }
}

// Whether each of these rows is `first` and absent slots. It leaves at no cell and looks at all sixteen of a row, so that it is compiled to wide comparisons: of a slice, since in an
// array the loop is taken apart before.
fn rows_are(rows: &[i32], first: i32) -> bool
    ensures { (result ≡ true) → RowsAre rows.now first (length rows.now) }
{
    let mut other = false;
    for (i, x) in rows.iter().enumerate() {
        other |= *x != wanted(first, i % layout::ROW);
    }
    !other
}

// Whether the row has nothing pending and no slot, or one message: enough but for a device's row to itself.
#[tactic(auto, using(crate::proofs::Tests::idle_passes))]
fn pending_row(row: &[i32; layout::ROW]) -> bool
    ensures { (result ≡ true) → Pending row.now }
{
    rows_are(row, 0) || row[0] == 1
}

// The same of two rows, mostly by one test.
#[tactic(auto, using(crate::proofs::Tests::both_idle))]
fn pending_pair(pair: &[i32; PAIR]) -> bool
    ensures { (result ≡ true) → Pending (row pair.now 0 16) × Pending (row pair.now 16 16) }
{
    if rows_are(pair, 0) {
        return true;
    }
    let (rows, _) = pair.as_chunks::<{ layout::ROW }>();
    pending_row(&rows[0]) && pending_row(&rows[1])
}

// The rows pending to two devices: those to 0 and 1, to 2 and 3, and so on.
#[tactic(auto, using(crate::proofs::Blocks::pair_in_chunks))]
fn pair_of(block: &[i32; layout::BLOCK], pair: usize) -> &[i32; PAIR]
    requires { pair < 8 }
    ensures { result.now ≡ row block.now (pending_at 1 + pair * 32) 32 }
{
    let (pairs, _) = block[layout::PENDING..layout::AGES].as_chunks::<PAIR>();
    &pairs[pair]
}

// The rows pending from a device, its own among them.
#[tactic(auto, using(crate::proofs::Blocks::pending_more))]
fn pending_rows(block: &[i32; layout::BLOCK]) -> bool
    ensures { (result ≡ true) → PendingRows block.now 16 }
{
    for pair in 0..layout::DEVICES / 2 {
        if !pending_pair(pair_of(block, pair)) {
            return false;
        }
    }
    true
}

// Whether a row that was heard with that age has an age in range, or is absent and without age: most rows are. Enough but for a device's row from itself.
fn plain_row(row: &[i32; layout::ROW], age: i32) -> bool
    ensures { (result ≡ true) → Heard row.now age }
{
    if age == layout::MARK {
        rows_are(row, layout::MARK)
    } else {
        cells::in_range(age, layout::OLDEST) && cells::distance_sound(row[0])
    }
}

// Whether it has a distance, and no age and no slot. Enough but for a device's row from itself. It stays a call: compiled into the loop of the plain rows, it keeps
// their test from being compiled to wide comparisons.
#[inline(never)]
#[tactic(auto, using(crate::proofs::Tests::linked_passes))]
fn linked_row(row: &[i32; layout::ROW], age: i32) -> bool
    ensures { (result ≡ true) → Heard row.now age }
{
    age == layout::MARK
        && cells::in_range(row[0], layout::FARTHEST)
        && !cell_rules::any_present(&row[1..])
}

// Whether a row that was heard with that age is sound, but for a device's row from itself.
fn heard_row(row: &[i32; layout::ROW], age: i32) -> bool
    ensures { (result ≡ true) → Heard row.now age }
{
    plain_row(row, age) || linked_row(row, age)
}

// The rows heard by a device, its own among them, with their ages.
fn heard_rows(block: &[i32; layout::BLOCK]) -> bool
    ensures { (result ≡ true) → HeardRows block.now 16 }
{
    let ages = row_of(block, 2 * layout::DEVICES);
    for b in 0..layout::DEVICES {
        if !heard_row(row_of(block, b), ages[b]) {
            return false;
        }
    }
    true
}

// Whether a device has no link to itself, no message and no age. So it has no slot from itself either.
fn own_rows(block: &[i32; layout::BLOCK], device: usize) -> bool
    requires { device < 16 }
    ensures { (result ≡ true) → OwnRows block.now device }
{
    let link = row_of(block, device)[0];
    let message = row_of(block, layout::DEVICES + device)[0];
    let age = row_of(block, 2 * layout::DEVICES)[device];
    [link, message, age] == [layout::MARK, 0, layout::MARK]
}

// Whether all cells of a device are sound, without telling which is not. Only `true` is relied on.
#[tactic(auto, using(crate::proofs::Blocks::passes))]
fn block_sound(block: &[i32; layout::BLOCK], device: usize) -> bool
    requires { device < 16 }
    ensures { (result ≡ true) → SoundBelow block.now device block_size }
{
    cell_rules::sensors_sound(block)
        && heard_rows(block)
        && pending_rows(block)
        && own_rows(block, device)
}

// The lowest unsound cell. The search goes into a device that the pass refused.
fn first_unsound(net: &[i32; layout::CELLS]) -> Option<usize>
    ensures { lowest_unsound 1 16 net.now ≡ place_of result }
{
    let mut bad = None;
    let (blocks, _) = net.as_chunks::<{ layout::BLOCK }>();
    'search: for (device, block) in blocks.iter().enumerate() {
        if block_sound(block, device) {
            continue 'search;
        }
        if !cell_rules::sensors_sound(block) {
            bad = Some(device * layout::BLOCK + layout::SENSORS);
            break 'search;
        }
        for row in 0..layout::ROWS {
            for slot in 0..layout::ROW {
                if !cell_rules::cell_sound(block, device, row, slot) {
                    let at = layout::HEARD + row * layout::ROW + slot;
                    bad = Some(device * layout::BLOCK + at);
                    break 'search;
                }
            }
        }
    }
    bad
}

fn unsound(place: usize) -> Refusal
    ensures { result ≡ record { reason = Reason.Unsound; place = place } }
{
    Refusal {
        reason: Reason::Unsound,
        place,
    }
}

// Refusal 11 with the lowest unsound cell, or place 0 for a wrong length.
pub fn soundness(net: &[i32]) -> Result<(), Refusal>
    ensures { outcome result ≡ soundness net.now }
{
    let Some(net) = net.as_array() else {
        return Err(unsound(0));
    };
    match first_unsound(net) {
        Some(place) => Err(unsound(place)),
        None => Ok(()),
    }
}
