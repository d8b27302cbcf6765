// Whether each node of a table of words is spatial, noted once a node, from the lowest up.
#![tactic(auto)]

ghost use Rattle.std.specs.Prelude.{◌≡◌, ◌<◌, ◌≤◌};
ghost use Rattle.program.specs.Table.{node_limit};
ghost use Rattle.words.specs.Word.{word};
ghost use Rattle.spatial.specs.Noted.{Spatials, spatial_of};

use operands::{Words, is};
use unpack::form_of;

#[tactic(auto, unfolding(crate::specs::Noted::spatial_of))]
fn spatial_of(ws: Words<'_>, sp: &[bool; layout::NODES], n: usize) -> bool
    requires { n < node_limit }
    ensures { result ≡ spatial_of sp.now (word ws.entry.all.now n) }
{
    let w = ws.all[n];
    is(w, operands::SPATIAL)
        || form_of(w) == unpack::CALL && ws.body_noted(n, sp, false)
        || ws.noted(n, 0, sp, false)
        || ws.noted(n, 1, sp, false)
        || ws.noted(n, 2, sp, false)
        || ws.noted(n, 3, sp, false)
}

// Whether each node below count is spatial.
pub fn make_spatial(ws: Words<'_>, sp: &mut [bool; layout::NODES], count: usize)
    requires { count ≤ node_limit }
    ensures { Spatials ws.entry.all.now sp.new count }
{
    for n in 0..count {
        sp[n] = spatial_of(ws, sp, n);
    }
}
