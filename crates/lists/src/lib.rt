// Lists of events as bytes: the event at the front of one, and how many there are, or where the list is refused. Each exactly as the crate event defines it.
#![tactic(auto)]

ghost use Rattle.std.specs.Prelude.{◌≡◌, ◌<◌, length, MatchOption, IfSome};
ghost use Rattle.wire.specs.Wire.{fields_of};
ghost use Rattle.event.specs.Event.{read_as, read_list, read_one};
ghost use Rattle.lists.specs.Listed.{as_read, NoEvent, Splits, bad_list, count_of};

use verdict::{Reason, Refusal};

#[derive(Clone, Copy, Debug, PartialEq, Eq)]
pub enum Event {
    Fire(u8),
    Deliver(u8, u8),
    Lose(u8, u8),
    Link(u8, u8, i32),
    Signal(u8, u8, u8),
}

// The event of a field with that tag and body, none where the tag is unknown or the length is wrong.
#[tactic(auto, unfolding(event::specs::Event::read_as))]
pub fn event_of(tag: u8, body: &[u8]) -> Option<Event>
    ensures { as_read result ≡ read_as tag body.now }
{
    match (tag, body) {
        (0x10, [a]) => Some(Event::Fire(*a)),
        (0x11, [a, b]) => Some(Event::Deliver(*a, *b)),
        (0x12, [a, b]) => Some(Event::Lose(*a, *b)),
        (0x13, [a, b, h, i, j, k]) => {
            let distance = i32::from_be_bytes([*h, *i, *j, *k]);
            Some(Event::Link(*a, *b, distance))
        }
        (0x14, [a, sensor, switch]) => Some(Event::Signal(*a, *sensor, *switch)),
        _ => None,
    }
}

// The first event of a list and what stands behind it; none where no field is left, the first is cut short or it is no event.
pub fn split_event(list: &[u8]) -> Option<(Event, &[u8])>
    ensures first { MatchOption result (NoEvent (fields_of list.now)) (λ p. Splits list.now p.0 p.1.now) }
    ensures shorter { IfSome result (λ p. length p.1.now < length list.now) }
{
    let (field, rest) = wire_reader::split_field(list)?;
    let event = event_of(field.tag, field.body)?;
    Some((event, rest))
}

// Refusal 12, with so many whole events before it.
fn refused(place: usize) -> Refusal
    ensures { result ≡ bad_list place }
{
    Refusal {
        reason: Reason::BadList,
        place,
    }
}

// A list of any number of events.
pub fn count_events(list: &[u8]) -> Result<usize, Refusal>
    ensures { result ≡ count_of (read_list list.now) }
{
    let mut rest = list;
    let mut n: usize = 0;
    while !rest.is_empty() {
        let Some((_, after)) = split_event(rest) else {
            return Err(refused(n)); // cut short, or no event
        };
        rest = after;
        n += 1;
    }
    Ok(n)
}

// A list of exactly one event.
pub fn one_event(list: &[u8]) -> Result<usize, Refusal>
    ensures { result ≡ count_of (read_one (fields_of list.now)) }
{
    let Some((_, rest)) = split_event(list) else {
        return Err(refused(0)); // no field, cut short, or no event
    };
    if !rest.is_empty() {
        return Err(refused(1));
    }
    Ok(1)
}
