// The lines that the replay prints, each put behind the text so far.
#![tactic(auto)]

ghost use Rattle.std.specs.Prelude.{◌≡◌, ◌++◌, ◌+◌, ◌*◌, ◌≤◌, length};
ghost use Rattle.arrayvec.specs.ArrayString.{array_string_len};
ghost use Rattle.verdict.specs.Outcome.{number_of};
ghost use Rattle.event.specs.Calls.{answer_width};
ghost use Rattle.lines.specs.Text.{line_room, line, lines, refused_line};

use arrayvec::ArrayString;
use itoa::{Buffer, Integer};
use verdict::Refusal;

// A number as std spells it, which is this crate's `decimal` or `signed_text`: proved in proofs/Digits. Not by `write!`, which may fail, and no clause says when it does not.
fn put_number<I: Integer, const ROOM: usize>(n: I, text: &mut ArrayString<ROOM>)
    requires { array_string_len text.old + I.MAX_STR_LEN ≤ ROOM }
    ensures bytes { text.new.bytes ≡ text.old.bytes ++ I.text n }
    ensures len { array_string_len text.new ≤ array_string_len text.old + I.MAX_STR_LEN }
{
    text.push_str(Buffer::new().format(n));
}

// An event's line: 45 bytes at the most, so that the room of a line is enough.
fn put_line<const ROOM: usize>(index: usize, code: i32, value: i32, text: &mut ArrayString<ROOM>)
    requires { array_string_len text.old + line_room ≤ ROOM }
    ensures bytes { text.new.bytes ≡ text.old.bytes ++ line index code value }
    ensures len { array_string_len text.new ≤ array_string_len text.old + line_room }
{
    put_number(index, text);
    text.push(' ');
    put_number(code, text);
    text.push(' ');
    put_number(value, text);
    text.push('\n');
}

// The line of a refusal.
pub fn put_refused<const ROOM: usize>(refusal: Refusal, text: &mut ArrayString<ROOM>)
    requires { array_string_len text.old + line_room ≤ ROOM }
    ensures { text.new.bytes ≡ text.old.bytes ++ refused_line (number_of refusal.reason) refusal.place }
{
    text.push_str("refused ");
    put_number(refusal.reason.number(), text);
    text.push(' ');
    put_number(refusal.place, text);
    text.push('\n');
}

// The lines of n events, whose answers stand in the first n pairs of cells, as a call leaves them in C's answer space.
pub fn put_lines<const ROOM: usize>(cells: &[i32], n: usize, text: &mut ArrayString<ROOM>)
    requires { (answer_width * n ≤ length cells.now) × (array_string_len text.old + line_room * n ≤ ROOM) }
    ensures { text.new.bytes ≡ text.old.bytes ++ lines 0 n cells.now }
{
    for i in 0..n {
        put_line(
            i,
            cells[layout::ANSWER * i],
            cells[layout::ANSWER * i + 1],
            text,
        );
    }
}
