// A whole file, read into a lent buffer.
#![tactic(auto)]

ghost use Rattle.files.specs.Whole.{Shorter};

use std::fs;
use std::io::Read;
use std::rt::Files;

// Reads to the end. A file that fills the buffer may have more bytes than it, and is refused, as is one that cannot be read.
fn read_open<F: Read>(file: &mut F, buf: &mut [u8]) -> Option<usize>
    ensures { Shorter result buf.new }
{
    let mut at: usize = 0;
    while at < buf.len() {
        let n = file.read(&mut buf[at..]).ok()?;
        if n == 0 {
            return Some(at); // the end
        }
        at += n;
    }
    None // too long
}

// How many bytes the file of that name has, which then stand at the start of the buffer, or None where it is absent, cannot be read, or is not shorter than the buffer.
// std's paths are text, so a name that is not UTF-8 is refused too. A count beside the buffer, and no slice lent out of it: replay's `Printed` speaks of what the reads left in the buffers.
pub fn read<R: Files>(rt: &R, path: &[u8], buf: &mut [u8]) -> Option<usize>
    ensures { Shorter result buf.new }
{
    let name = str::from_utf8(path).ok()?;
    let mut file = fs::open(rt, name).ok()?;
    read_open(&mut file, buf)
}
