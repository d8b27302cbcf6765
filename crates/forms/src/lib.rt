// The form that a closing bracket ends, and whether a top-level form is a definition, by scans of the tokens.
#![tactic(auto)]

ghost use Rattle.std.specs.Prelude.{◌≡◌};
ghost use Rattle.notation.proofs.Lexing.{lex};
ghost use Rattle.tabling.specs.Emit.{is_definition};
ghost use Rattle.rep_around.specs.Outward.{passed_by};
ghost use Rattle.forms.specs.Closes.{opens, Closes};

use lexemes::Kind;
use rep_around::Walk;

// A form from its end: how far into its top-level form its bracket stands, how many items it has with its head, its head, the word behind that.
#[derive(Clone, Copy)]
pub struct Form<'a> {
    pub open: usize,
    pub items: usize,
    pub head: &'a [u8],
    pub second: &'a [u8],
}

// Whether a token of that kind opens the form that the walk has passed.
fn opens(kind: Kind, walk: Walk<'_>) -> bool
    ensures { result ≡ opens kind (passed_by walk.entry) }
{
    match kind {
        Kind::Opening => walk.depth == 0,
        Kind::Closing | Kind::Word => false,
    }
}

// The form whose closing bracket stands behind these bytes of a top-level form.
pub fn form_of(part: &[u8]) -> Option<Form<'_>>
    ensures { Closes part.now result }
{
    let mut walk = Walk::new();
    let mut at = part.len();
    // Stays (c): no `while let`, which the borrow checker does not cover beside a walk that holds references.
    loop {
        let l = lexemes::last(part, at)?;
        // the kind is asked once: a word opens nothing
        walk = match l.kind {
            Kind::Word => walk.outward(Kind::Word, &part[l.start..l.end]),
            kind => {
                if opens(kind, walk) {
                    return Some(Form {
                        open: l.start,
                        items: walk.items,
                        head: walk.last,
                        second: walk.prior,
                    });
                }
                walk.outward(kind, &part[l.start..l.end])
            }
        };
        at = l.start;
    }
}

// Whether a top-level form is a definition: its second token is def. A form of one token is none.
pub fn is_definition(form: &[u8]) -> bool
    ensures { result ≡ is_definition (lex form.now) }
{
    let Some(first) = lexemes::next(form, 0) else {
        return false;
    };
    match lexemes::next(form, first.end) {
        Some(l) if l.kind == Kind::Word => &form[l.start..l.end] == b"def".as_slice(),
        _ => false,
    }
}
