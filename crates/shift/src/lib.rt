// A shift replayed: the text that a program and a list of events print, from a fresh network.
#![tactic(auto)]

ghost use Rattle.std.specs.Prelude.{◌≡◌, [], ◌*◌, ◌≤◌, length, IfOk, IfErr};
ghost use Rattle.verdict.specs.Outcome.{number_of};
ghost use Rattle.event.specs.Calls.{answer_width};
ghost use Rattle.lines.specs.Text.{lines, refused_line};
ghost use Rattle.shift.specs.Replayed.{blank, replayed};

use arrayvec::ArrayString;
use verdict::Refusal;

// Two numbers for each event that a file can have, and a line.
const ANSWERS: usize = layout::ANSWER * layout::EVENTS;

pub const ROOM: usize = layout::LINE * layout::EVENTS;

// What the replay prints.
pub type Text = ArrayString<ROOM>;

// Runs the list on a fresh network: how many events there are, whose answers then stand at the start of the space.
fn carry_out(program: &[u8], list: &[u8], space: &mut [i32]) -> Result<usize, Refusal>
    requires { space.old ≡ blank }
    ensures room { IfOk result (λ n. answer_width * n ≤ length space.new) }
    ensures answers { IfOk result (λ n. lines 0 n space.new ≡ replayed program.now list.now) }
    ensures refusal { IfErr result (λ r. refused_line (number_of r.reason) r.place ≡ replayed program.now list.now) }
{
    let mut network = [0; layout::CELLS];
    let _ = fresh::fresh(&mut network); // it is as long as a network
    calls::run(program, &mut network, list, space)?;
    lists::count_events(list)
}

// Puts the text of a program and a list. The text is lent: handed up by value it would be copied at each call, and it is large.
pub fn put_replayed(program: &[u8], list: &[u8], text: &mut Text)
    requires { text.old.bytes ≡ [] }
    ensures { text.new.bytes ≡ replayed program.now list.now }
{
    let mut space = [0; ANSWERS];
    match carry_out(program, list, &mut space) {
        Ok(events) => lines::put_lines(&space, events, text),
        Err(refusal) => lines::put_refused(refusal, text),
    }
}

// The same as a text of its own.
pub fn replayed(program: &[u8], list: &[u8]) -> Text
    ensures { result.bytes ≡ replayed program.now list.now }
{
    let mut text = Text::new();
    put_replayed(program, list, &mut text);
    text
}
