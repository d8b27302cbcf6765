// Making a network fresh.
#![tactic(auto)]

ghost use Rattle.std.specs.Prelude.{◌≡◌};
ghost use Rattle.verdict.specs.Outcome.{outcome};
ghost use Rattle.network.specs.Network.{fresh_block, fresh_call};

use verdict::{Reason, Refusal};

// The cells of a device of a fresh network.
fn fresh_block() -> [i32; layout::BLOCK]
    ensures { result ≡ fresh_block }
{
    let mut block = [layout::MARK; layout::BLOCK];
    block[layout::SENSORS] = 0;
    for b in 0..layout::DEVICES {
        block[layout::PENDING + layout::ROW * b] = 0;
    }
    block
}

// The network becomes fresh. Only a wrong length is refused.
pub fn fresh(net: &mut [i32]) -> Result<(), Refusal>
    ensures { (outcome result, net.new) ≡ fresh_call net.old }
{
    if net.len() != layout::CELLS {
        return Err(Refusal {
            reason: Reason::Unsound,
            place: 0,
        });
    }
    let block = fresh_block();
    for device in 0..layout::DEVICES {
        cells::copy(net, device * layout::BLOCK, &block, 0, layout::BLOCK);
    }
    Ok(())
}
