// The replay of a shift: reads program.pf and events.pf in the current folder, and prints the answers or the refusal.
#![tactic(auto)]

ghost use Rattle.std.specs.Prelude.{◌≡◌, [], ◌+◌, length};
ghost use Rattle.files.specs.Whole.{Shorter};
ghost use Rattle.shift.specs.Replayed.{file_size};
ghost use Rattle.replay.specs.Text.{text_of, Printed};

use shift::Text;
use std::rt::Files;
use verdict::{Reason, Refusal};

// One byte more than a replay file may have.
const LONGER: usize = layout::FILE + 1;

// Puts the text of two files: `first` and `second` are what the reads into `program` and `list` answered.
#[tactic(auto, unfolding(crate::specs::Text::text_of))]
fn text(first: Option<usize>, second: Option<usize>, program: &[u8], list: &[u8], out: &mut Text)
    requires { Shorter first program.now × Shorter second list.now × (out.old.bytes ≡ []) }
    ensures { out.new.bytes ≡ text_of first program.now second list.now }
{
    let (Some(p), Some(n)) = (first, second) else {
        let refusal = Refusal {
            reason: Reason::BadFile,
            place: 0,
        };
        lines::put_refused(refusal, out);
        return;
    };
    shift::put_replayed(&program[..p], &list[..n], out);
}

// Reads both files, and puts their text.
fn replay<R: Files>(rt: &R, program: &mut [u8], list: &mut [u8], out: &mut Text)
    requires { (length program.old ≡ 1 + file_size) × (length list.old ≡ 1 + file_size) × (out.old.bytes ≡ []) }
    ensures { Printed program.new list.new out.new.bytes }
{
    let first = files::read(rt, b"program.pf", program);
    let second = files::read(rt, b"events.pf", list);
    text(first, second, program, list, out);
}

fn main(rt: HostRuntime) {
    let mut program = [0; LONGER];
    let mut list = [0; LONGER];
    let mut text = Text::new();
    replay(&rt, &mut program, &mut list, &mut text);
    let is_written = rt.stdout().write_all(text.as_str().as_bytes()).is_ok();
    if !is_written {
        let _ = rt.stderr().write_all(b"replay: cannot write\n");
    }
}
