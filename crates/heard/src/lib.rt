// The fields of what a device heard: the numbers in a slot, and a measure of those heard with 0 in it.
//
// `here`: what a round reads, the device's cells but its messages, with the ages where those begin.
#![tactic(auto)]

ghost use Rattle.std.specs.Prelude.{◌≡◌, ◌+◌, ◌*◌, ◌<◌};
ghost use Rattle.domain.specs.Held.{field_of, held};
ghost use Rattle.round.specs.Round.{heard_in, measured};
ghost use Rattle.heard.specs.Present.{present_in};
ghost use Rattle.heard.specs.Measures.{own_size, cells_from};

use domain::{Domain, Held};
use layout::{DEVICES, HEARD, LAGS, MARK, OWN, ROW};

// Where a measure stands: that of device 1 in the cell `from`, that of each next device `by` cells on.
#[derive(Clone, Copy)]
pub struct Measure {
    pub from: usize,
    pub by: usize,
    ghost inside: { from + by * 15 < own_size },
}

impl Measure {
    // What nbr-range asks for, and nbr-lag.
    pub const DISTANCE: Measure = Measure {
        from: HEARD,
        by: ROW,
    };

    pub const AGE: Measure = Measure { from: LAGS, by: 1 };
}

// The domain of the cells that are not absent. Each cell's bit comes in at the top and moves down by one with each next.
#[tactic(auto, using(crate::proofs::Fields::filled))]
fn present(cells: &[i32; DEVICES]) -> Domain
    ensures { field_of result.bits cells.now ≡ present_in cells.now }
{
    let mut bits: u16 = 0;
    for v in cells {
        bits = bits / 2 + if *v == MARK { 0 } else { 0x8000 };
    }
    Domain { bits }
}

// The field of the devices heard in a slot.
#[tactic(auto, using(crate::proofs::Fields::filled))]
pub fn heard_of(here: &[i32; OWN], slot: usize) -> Held
    requires { slot < 16 }
    ensures { held result ≡ heard_in here.now slot }
{
    let mut cells = [MARK; DEVICES];
    for b in 0..DEVICES {
        cells[b] = here[HEARD + ROW * b + slot];
    }
    Held {
        dom: present(&cells),
        cells,
    }
}

// The field of a measure, for the devices heard with 0 in a slot.
#[tactic(auto, using(crate::proofs::Fields::filled))]
pub fn measured(here: &[i32; OWN], slot: usize, measure: Measure) -> Held
    requires { slot < 16 }
    ensures { held result ≡ measured (cells_from measure.from measure.by) here.now slot }
{
    let mut cells = [MARK; DEVICES];
    for b in 0..DEVICES {
        // Both are read, so that the choice needs no jump.
        let heard = here[HEARD + ROW * b + slot];
        let number = here[measure.from + measure.by * b];
        cells[b] = if heard == 0 { number } else { MARK };
    }
    Held {
        dom: present(&cells),
        cells,
    }
}
