// What a device heard, one round on: every age present is 1 more, and at 3 it and its sender's slots are absent.
#![tactic(auto)]

ghost use Rattle.std.specs.Prelude.{◌≡◌, false, map, ◌+◌, ◌-◌, ◌*◌, ◌≤◌, length, get_or, pos};
ghost use Rattle.field.specs.Field.{devices, each};
ghost use Rattle.network.specs.Cells.{row, store};
ghost use Rattle.network.specs.Network.{heard_at, block_size};
ghost use Rattle.round.specs.Round.{joined, fades, older, faded};
ghost use Rattle.fading.specs.Fading.{row_after, NoneFades, Older};

// Whether what has the age x fades in this round.
#[tactic(auto, unfolding(round::specs::Round::fades))]
fn fades(x: i32) -> bool
    ensures { result ≡ fades x }
{
    x >= layout::OLDEST
}

// The age x after this round.
#[tactic(auto, unfolding(round::specs::Round::older, round::specs::Round::fades))]
fn older(x: i32) -> i32
    ensures { result ≡ older x }
{
    if x == layout::MARK || fades(x) {
        layout::MARK
    } else {
        x + 1
    }
}

// Whether something fades in this round that has one of these ages. Only `false` is relied on. It leaves at no age, so that it is compiled to vectors.
fn any_fades(ages: &[i32]) -> bool
    ensures { (result ≡ false) → NoneFades ages.now (length ages.now) }
{
    let mut any = false;
    for age in ages {
        any |= fades(*age);
    }
    any
}

// The row at `at`, heard with that age: its slots are absent where it fades.
fn fade_row(net: &mut [i32], at: usize, age: i32)
    requires { at + 16 ≤ length net.old }
    ensures { net.new ≡ store net.old at (row_after net.old at age) }
{
    if fades(age) {
        cells::clear(net, at + 1, layout::SLOTS);
    }
}

// The rows heard from all devices, from `at` on, with those ages.
fn fade_rows(net: &mut [i32], at: usize, ages: &[i32; layout::DEVICES])
    requires { at + 16 * devices ≤ length net.old }
    ensures { net.new ≡ store net.old at (joined (each (λ b. row_after net.old (at + 16 * (b - 1)) (get_or ages.now (b - 1) (pos 0))))) }
{
    for (b, age) in ages.iter().enumerate() {
        fade_row(net, at + layout::ROW * b, *age);
    }
}

// These ages, all at once.
#[tactic(auto, using(crate::proofs::Rows::age_more))]
fn age_all(ages: &mut [i32])
    ensures { ages.new ≡ map older ages.old }
{
    for age in ages.iter_mut() {
        *age = older(*age);
    }
}

// The rows of the device whose cells are from `at` on; they are walked only if one fades.
fn fade_heard(net: &mut [i32], at: usize)
    requires { at + block_size ≤ length net.old }
    ensures { net.new ≡ store net.old (at + heard_at 1) (joined (each (faded (row net.old at block_size)))) }
{
    if any_fades(&net[at + layout::AGES..at + layout::BLOCK]) {
        let mut ages = [0; layout::DEVICES];
        ages.copy_from_slice(&net[at + layout::AGES..at + layout::BLOCK]);
        fade_rows(net, at + layout::HEARD, &ages);
    }
}

// The device whose cells are from `at` on has completed a round.
pub fn pass_round(net: &mut [i32], at: usize)
    requires { at + block_size ≤ length net.old }
    ensures { Older net.old at net.new }
{
    fade_heard(net, at);
    age_all(&mut net[at + layout::AGES..at + layout::BLOCK]);
}
