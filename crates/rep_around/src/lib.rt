// The rep that binds a name, found by a walk outwards over the tokens before it; what a name stands for.
#![tactic(auto)]

ghost use Rattle.std.specs.Prelude.{◌≡◌, ◌+◌, ◌<◌, ◌^◌, length};
ghost use Rattle.notation.proofs.Lexing.{lex};
ghost use Rattle.token_scans.specs.Scan.{reps_in};
ghost use Rattle.rep_around.specs.Outward.{Outward, at_first, binds_here, stepped, passed_by, meant_of};
ghost use Rattle.rep_around.specs.Meaning.{meaning_at};

use lexemes::Kind;
use token_scans::Mode;

// A variable or a parameter, by its number.
#[derive(Clone, Copy, Debug, PartialEq, Eq)]
pub enum Meant {
    Variable(usize),
    Parameter(usize),
}

// Outwards from an expression: the brackets still to be opened that were closed on the way, the items passed of the form around it, the last word passed among them, and the one before it on
// the way.
#[derive(Clone, Copy)]
pub struct Walk<'a> {
    pub depth: usize,
    pub items: usize,
    pub last: &'a [u8],
    pub prior: &'a [u8],
}

impl<'a> Walk<'a> {
    pub fn new() -> Walk<'a>
        ensures { passed_by result ≡ at_first }
    {
        Walk {
            depth: 0,
            items: 0,
            last: &[],
            prior: &[],
        }
    }

    // Whether a token of that kind opens a rep that binds the word.
    fn binds(self, kind: Kind, w: &[u8]) -> bool
        ensures { result ≡ binds_here w.now kind (passed_by self.entry) }
    {
        match kind {
            Kind::Opening if self.depth == 0 && self.items == 3 => {
                self.last == b"rep".as_slice() && self.prior == w
            }
            _ => false,
        }
    }

    // One token further out: that word, or a bracket.
    pub fn outward(self, kind: Kind, word: &'a [u8]) -> Walk<'a>
        requires depth { self.depth + 1 < 2 ^ 64 }
        requires items { self.items + 1 < 2 ^ 64 }
        ensures { passed_by result ≡ stepped kind word.now (passed_by self.entry) }
    {
        let (depth, items) = match kind {
            Kind::Opening if self.depth == 0 => return Walk::new(),
            Kind::Opening => (self.depth - 1, self.items),
            Kind::Closing if self.depth == 0 => (1, self.items + 1),
            Kind::Closing => (self.depth + 1, self.items),
            Kind::Word if self.depth == 0 => {
                return Walk {
                    depth: 0,
                    items: self.items + 1,
                    last: word,
                    prior: self.last,
                };
            }
            Kind::Word => return self,
        };
        Walk {
            depth,
            items,
            ..self
        }
    }
}

// The rep that binds a word behind these bytes of a top-level form: how far into them its bracket stands.
pub fn rep_of(form: &[u8], w: &[u8]) -> Option<usize>
    ensures { Outward w.now form.now result }
{
    let mut walk = Walk::new();
    let mut at = form.len();
    // Stays (c): no `while let`, which the borrow checker does not cover beside a walk that holds references.
    loop {
        let l = lexemes::last(form, at)?;
        // the kind is asked once: a word binds nothing
        walk = match l.kind {
            Kind::Word => walk.outward(Kind::Word, &form[l.start..l.end]),
            kind => {
                if walk.binds(kind, w) {
                    return Some(l.start);
                }
                walk.outward(kind, &form[l.start..l.end])
            }
        };
        at = l.start;
    }
}

// What a name stands for behind these bytes of a top-level form, with the text before the form. Variables are numbered from the beginning of the text.
pub fn meaning_of(earlier: &[u8], form: &[u8], w: &[u8]) -> Meant
    ensures { meant_of result ≡ meaning_at (reps_in (lex earlier.now)) (lex form.now) w.now }
{
    match rep_of(form, w) {
        Some(rep) => Meant::Variable(
            token_scans::reps_in(earlier) + token_scans::reps_in(&form[..rep]),
        ),
        None => Meant::Parameter(token_scans::name_in(form, Mode::Parameters, w).unwrap_or(0)),
    }
}
