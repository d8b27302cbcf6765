// Programs as Proto text: the whole reader, refusals 19, 20, those of the table, 13.
#![tactic(auto)]

ghost use Rattle.translation.specs.Reads.{Reads};
ghost use Rattle.verdict.specs.Outcome.{length_outcome};

use table_writer::Table;
use verdict::{Reason, Refusal};

// The table of a text, at the start of the slice: its length, or the refusal.
pub fn read_text(text: &[u8], table: &mut [u8]) -> Result<usize, Refusal>
    ensures { Reads text.now table.old (length_outcome result) table.new }
{
    if let Err(place) = parse::parse(text) {
        return Err(Refusal {
            reason: Reason::Outside,
            place,
        });
    }
    if !bindings::names_good(text) {
        return Err(Refusal {
            reason: Reason::BadName,
            place: 0,
        });
    }
    let mut written = Table::new();
    compile::fill(text, &mut written);
    let bytes = written.as_slice();
    program_check::check(bytes)?;
    let n = bytes.len();
    if table.len() < n {
        return Err(Refusal {
            reason: Reason::ShortSpace,
            place: 0,
        });
    }
    table[..n].copy_from_slice(bytes);
    Ok(n)
}
