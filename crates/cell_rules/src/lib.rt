// Which cells of a device are sound, one at a time. Devices, rows and slots are counted from 0 here.
#![tactic(auto)]

ghost use Rattle.std.specs.Prelude.{◌≡◌, ℕ, suc, ◌+◌, ◌*◌, ◌<◌};
ghost use Rattle.network.specs.Cells.{row};
ghost use Rattle.network.specs.Network.{sensors_at, heard_at, heard_sound, any_present};
ghost use Rattle.cell_rules.specs.Sound.{row_count, sound_at, pending_from, age_from};

// All sensors lit.
const ALL_LIT: i32 = 65535;

// Row r of a device's cells: 0 to 15 are heard from each sender, 16 to 31 are pending to each device, row 32 has the ages.
#[tactic(auto, using(crate::proofs::Cell::row_in_chunks))]
pub fn row_of(block: &[i32; layout::BLOCK], r: usize) -> &[i32; layout::ROW]
    requires { r < row_count }
    ensures { result.now ≡ row block.now (heard_at 1 + r * 16) 16 }
{
    let (rows, _) = block[layout::HEARD..].as_chunks::<{ layout::ROW }>();
    &rows[r]
}

#[tactic(auto, unfolding(crate::specs::Sound::sound_at, network::specs::Network::cell_sound))]
pub fn sensors_sound(block: &[i32; layout::BLOCK]) -> bool
    ensures { (a : ℕ) → result ≡ sound_at block.now a sensors_at }
{
    cells::in_range(block[layout::SENSORS], ALL_LIT)
}

// Cell `slot` of the row heard from `sender`.
#[tactic(auto, unfolding(network::specs::Network::heard_sound))]
fn heard_sound(device: usize, sender: usize, slot: usize, x: i32) -> bool
    ensures { result ≡ heard_sound (suc device) (suc sender) slot x }
{
    if sender == device {
        x == layout::MARK
    } else {
        slot != 0 || cells::distance_sound(x)
    }
}

// Cell `slot` of the row pending to `to`, whose first cell is `first`.
#[tactic(auto, unfolding(crate::specs::Sound::pending_from))]
fn pending_sound(device: usize, to: usize, slot: usize, first: i32, x: i32) -> bool
    ensures { result ≡ pending_from (suc device) first (suc to) slot x }
{
    if slot == 0 {
        x == 0 || (to != device && x == 1)
    } else {
        x == layout::MARK || (to != device && first != 0)
    }
}

// Whether one of the slots holds a number. It leaves at no slot, so that it is compiled to vectors.
#[tactic(auto, using(crate::proofs::Present::present_step), unfolding(network::specs::Network::any_present))]
pub fn any_present(slots: &[i32]) -> bool
    ensures { result ≡ any_present slots.now }
{
    let mut any = false;
    for x in slots {
        any |= *x != layout::MARK;
    }
    any
}

// The age of what was heard from `sender`, where `heard` says whether a slot of it is.
#[tactic(auto, unfolding(crate::specs::Sound::age_from))]
fn age_sound(device: usize, sender: usize, heard: bool, x: i32) -> bool
    ensures { result ≡ age_from (suc device) heard (suc sender) x }
{
    if x == layout::MARK {
        !heard
    } else {
        sender != device && cells::in_range(x, layout::OLDEST)
    }
}

#[tactic(auto, using(crate::proofs::Cell::age_cell))]
pub fn cell_sound(block: &[i32; layout::BLOCK], device: usize, r: usize, slot: usize) -> bool
    requires { (r < row_count) × (slot < 16) }
    ensures { result ≡ sound_at block.now device (heard_at 1 + r * 16 + slot) }
{
    let row = row_of(block, r);
    let x = row[slot];
    if r < layout::DEVICES {
        heard_sound(device, r, slot, x)
    } else if r < 2 * layout::DEVICES {
        pending_sound(device, r - layout::DEVICES, slot, row[0], x)
    } else {
        age_sound(device, slot, any_present(&row_of(block, slot)[1..]), x)
    }
}
