// A network's cells: where they stand, which distance one may hold, cells copied, made absent, and a row with nothing pending.
#![tactic(auto)]

ghost use Rattle.std.specs.Prelude.{◌≡◌, ◌&&◌, ◌+◌, ◌-◌, ◌*◌, ◌<◌, ◌≤◌, length, replicate, pos};
ghost use Rattle.number.specs.Number.{mark};
ghost use Rattle.network.specs.Cells.{row, store};
ghost use Rattle.network.specs.Network.{block_size, base, no_message, within, is_distance};
ghost use Rattle.event.specs.Step.{is_device, sensors_of, heard_from, pending_to, age_of};

// The cells of a row with nothing pending.
const IDLE: [i32; layout::ROW] = [
    0,
    layout::MARK,
    layout::MARK,
    layout::MARK,
    layout::MARK,
    layout::MARK,
    layout::MARK,
    layout::MARK,
    layout::MARK,
    layout::MARK,
    layout::MARK,
    layout::MARK,
    layout::MARK,
    layout::MARK,
    layout::MARK,
    layout::MARK,
];

pub fn is_device(a: u8) -> bool
    ensures { result ≡ is_device a }
{
    (1..=16).contains(&a)
}

pub fn are_devices(a: u8, b: u8) -> bool
    ensures { result ≡ (is_device a && is_device b) }
{
    is_device(a) && is_device(b)
}

// The cell of a's sensors, the row that a heard from b, the row pending from a to b, and the age of what a heard from b.
pub fn sensors_of(a: u8) -> usize
    requires { 1 ≤ a }
    ensures { result ≡ sensors_of a }
{
    base(a) + layout::SENSORS
}

pub fn heard_from(a: u8, b: u8) -> usize
    requires { (1 ≤ a) × (1 ≤ b) }
    ensures { result ≡ heard_from a b }
{
    cell_for(a, layout::HEARD, layout::ROW, b)
}

pub fn pending_to(a: u8, b: u8) -> usize
    requires { (1 ≤ a) × (1 ≤ b) }
    ensures { result ≡ pending_to a b }
{
    cell_for(a, layout::PENDING, layout::ROW, b)
}

pub fn age_of(a: u8, b: u8) -> usize
    requires { (1 ≤ a) × (1 ≤ b) }
    ensures { result ≡ age_of a b }
{
    cell_for(a, layout::AGES, 1, b)
}

// Where a's cells begin.
fn base(a: u8) -> usize
    requires { 1 ≤ a }
    ensures { result ≡ base a }
{
    (usize::from(a) - 1) * layout::BLOCK
}

// Of a's cells that stand for each device, from `first` on and `step` cells for each, where those for b begin.
fn cell_for(a: u8, first: usize, step: usize, b: u8) -> usize
    requires { (1 ≤ a) × (1 ≤ b) × (first < block_size) × (step ≤ 16) }
    ensures { result ≡ base a + first + step * (b - 1) }
{
    base(a) + first + step * (usize::from(b) - 1)
}

// Whether x is 0 to `top`.
pub fn in_range(x: i32, top: i32) -> bool
    ensures { result ≡ within (pos 0) top x }
{
    (0..=top).contains(&x)
}

pub fn distance_sound(x: i32) -> bool
    ensures { result ≡ is_distance x }
{
    x == layout::MARK || in_range(x, layout::FARTHEST)
}

// The n cells from `at` become those of `from` from `start` on.
#[tactic(auto, using(crate::proofs::Stores::overwritten))]
pub fn copy(to: &mut [i32], at: usize, from: &[i32], start: usize, n: usize)
    requires { (at + n ≤ length to.old) × (start + n ≤ length from.now) }
    ensures { to.new ≡ store to.old at (row from.now start n) }
{
    to[at..at + n].copy_from_slice(&from[start..start + n]);
}

// The n cells from `at` on become absent.
#[tactic(auto, using(crate::proofs::Stores::overwritten))]
pub fn clear(net: &mut [i32], at: usize, n: usize)
    requires { at + n ≤ length net.old }
    ensures { net.new ≡ store net.old at (replicate n mark) }
{
    net[at..at + n].fill(layout::MARK);
}

// The sixteen cells from `at` become those of a row with nothing pending.
pub fn no_message(net: &mut [i32], at: usize)
    requires { at + 16 ≤ length net.old }
    ensures { net.new ≡ store net.old at no_message }
{
    copy(net, at, &IDLE, 0, layout::ROW);
}
