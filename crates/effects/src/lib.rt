// Every event but fire, on the network's cells, each exactly as the crate event defines it.
#![tactic(auto)]

ghost use Rattle.std.specs.Prelude.{◌≡◌, true, ◌+◌, ◌<◌, ◌≤◌, length, get_or, pos, MatchResult};
ghost use Rattle.std.specs.Int.Signed.{le_z};
ghost use Rattle.verdict.specs.Outcome.{number_of};
ghost use Rattle.event.specs.Event.{deliver, lose, link, signal};
ghost use Rattle.event.specs.Step.{refusal, sensors_of, digit_set};
ghost use Rattle.effects.specs.Does.{answer_of, answered, Waits, Does};

use verdict::Reason;

// A device has sensors 0 to 15.
const LAST_SENSOR: u8 = 15;

// What an event is answered: a value, 0 but for a fire's; a refusal; or the node that divided by 0.
#[derive(Clone, Copy, Debug, PartialEq, Eq)]
pub enum Answer {
    Value(i32),
    Refused(Reason),
    Faulted(i32),
}

impl Answer {
    // The two numbers of the answer space.
    pub fn numbers(self) -> (i32, i32)
        ensures { result ≡ answer_of self }
    {
        match self {
            Answer::Value(value) => (0, value),
            Answer::Refused(reason) => (reason.number() as i32, 0),
            Answer::Faulted(node) => (Reason::DividedByZero.number() as i32, node),
        }
    }
}

impl From<Result<(), Reason>> for Answer {
    ghost from_gives = { λ r a. a ≡ answered r };

    fn from(done: Result<(), Reason>) -> Answer {
        match done {
            Ok(()) => Answer::Value(0),
            Err(reason) => Answer::Refused(reason),
        }
    }
}

// Where the message from a waits for b, or why there is none to deliver or to lose.
fn message_at(net: &[i32; layout::CELLS], a: u8, b: u8) -> Result<usize, Reason>
    ensures { MatchResult result (Waits net.now a b) (λ r. refusal net.now (deliver a b) ≡ number_of r) }
{
    if !cells::are_devices(a, b) {
        return Err(Reason::BadItem);
    }
    if a == b {
        return Err(Reason::Itself);
    }
    let at = cells::pending_to(a, b);
    if net[at] == 0 {
        return Err(Reason::NothingPending);
    }
    Ok(at)
}

// b's heard slots 1 to 15 from a become the message's, slot 0 stays, their age is 0, and the pending message goes.
pub fn deliver(net: &mut [i32; layout::CELLS], a: u8, b: u8) -> Result<(), Reason>
    ensures { Does net.old (deliver a b) result net.new }
{
    let message = message_at(net, a, b)?;
    let heard = cells::heard_from(b, a);
    net.copy_within(message + 1..message + layout::ROW, heard + 1);
    net[cells::age_of(b, a)] = 0;
    cells::no_message(net, message);
    Ok(())
}

// The pending message goes.
pub fn lose(net: &mut [i32; layout::CELLS], a: u8, b: u8) -> Result<(), Reason>
    ensures { Does net.old (lose a b) result net.new }
{
    let lost = message_at(net, a, b)?;
    cells::no_message(net, lost);
    Ok(())
}

// The link from a to b has that distance; the mark ends it.
pub fn link(net: &mut [i32; layout::CELLS], a: u8, b: u8, distance: i32) -> Result<(), Reason>
    ensures { Does net.old (link a b distance) result net.new }
{
    if !cells::are_devices(a, b) || !cells::distance_sound(distance) {
        return Err(Reason::BadItem);
    }
    if a == b {
        return Err(Reason::Itself);
    }
    let at = cells::heard_from(a, b);
    net[at] = distance;
    Ok(())
}

// x with its binary digit s made v.
fn digit_set(x: u32, s: u8, v: u8) -> u32
    requires { (x < 2147483648) × (s ≤ 15) × (v ≤ 1) }
    ensures { (result ≡ digit_set s v x) × (result < 2147483648) }
{
    let bit = 1 << s;
    if v == 1 { x | bit } else { x & !bit }
}

// The sensor is lit or not. Its cell, 0 to 65,535 in a sound network, must not be negative.
pub fn signal(net: &mut [i32; layout::CELLS], a: u8, sensor: u8, switch: u8) -> Result<(), Reason>
    requires { le_z (pos 0) (get_or net.old (sensors_of a) (pos 0)) ≡ true }
    ensures { Does net.old (signal a sensor switch) result net.new }
{
    if !cells::is_device(a) || sensor > LAST_SENSOR || switch > 1 {
        return Err(Reason::BadItem);
    }
    let at = cells::sensors_of(a);
    net[at] = digit_set(net[at] as u32, sensor, switch) as i32;
    Ok(())
}
