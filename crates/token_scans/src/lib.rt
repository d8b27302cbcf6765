// Scans of a text's tokens without a stack: where a token stands, the names that are given in a part, how many heads have a slot or are rep.
#![tactic(auto)]

ghost use Rattle.std.specs.Prelude.{◌≡◌, cond, ◌≤◌, eqb, length, ℕ, Bool};
ghost use Rattle.notation.proofs.Lexing.{lex};
ghost use Rattle.token_scans.specs.Scan.{mode_after, words_in, slots_in, reps_in};
ghost use Rattle.token_scans.specs.Sought.{number_of, named, counted};

use lexemes::Kind;
use vocabulary::{CLOSING, DEF, FOLD, NBR, NBR_LAG, NBR_RANGE, OPENING, REP};

// Where the next token of a text stands.
#[derive(Clone, Copy, PartialEq, Eq)]
pub enum Mode {
    Elsewhere,
    // Behind an opening bracket.
    Head,
    // Behind def.
    DefinitionName,
    // Behind that name: the bracket of its parameters.
    BeforeParameters,
    Parameters,
    // Behind rep.
    BoundName,
    // Behind fold-hood*.
    FoldFunction,
}

impl Mode {
    // The mode behind a token of that code.
    #[tactic(auto, unfolding(crate::specs::Scan::mode_after))]
    pub fn after(self, code: u8) -> Mode
        ensures { number_of result ≡ mode_after (number_of self) code }
    {
        match self {
            Mode::Elsewhere if code == OPENING => Mode::Head,
            Mode::Head => behind_head(code),
            Mode::DefinitionName => Mode::BeforeParameters,
            Mode::BeforeParameters => Mode::Parameters,
            Mode::Parameters if code != CLOSING => Mode::Parameters,
            _ => Mode::Elsewhere,
        }
    }
}

#[tactic(auto, unfolding(crate::specs::Scan::mode_after))]
fn behind_head(code: u8) -> Mode
    ensures { number_of result ≡ mode_after 1 code }
{
    match code {
        DEF => Mode::DefinitionName,
        REP => Mode::BoundName,
        FOLD => Mode::FoldFunction,
        _ => Mode::Elsewhere,
    }
}

// Where the word stands among those that the part has in that mode.
pub fn name_in(part: &[u8], mode: Mode, w: &[u8]) -> Option<usize>
    ensures { result ≡ named w.now (words_in (number_of mode) 0 (lex part.now)) }
{
    let mut m = Mode::Elsewhere;
    let mut n: usize = 0;
    let mut at: usize = 0;
    while let Some(l) = lexemes::next(part, at) {
        let word = &part[l.start..l.end];
        let is_name = m == mode && l.kind == Kind::Word;
        if is_name && w == word {
            return Some(n);
        }
        n += usize::from(is_name);
        m = m.after(vocabulary::token_code(l.kind, word));
        at = l.end;
    }
    None
}

// How many tokens of the part pass a test of their mode and their code.
fn count<F: Fn(Mode, u8) -> bool>(part: &[u8], passes: F) -> usize
    requires { F.IsAlwaysCallable passes }
    ensures passed { (f : ℕ → ℕ → Bool) → ((m : Mode) (code : ℕ) (r : Bool) → F.post passes m code r → r ≡ f (number_of m) code)
        → result ≡ counted f 0 (lex part.now) }
    ensures few { result ≤ length part.now }
{
    let mut m = Mode::Elsewhere;
    let mut n: usize = 0;
    let mut at: usize = 0;
    while let Some(l) = lexemes::next(part, at) {
        let code = vocabulary::token_code(l.kind, &part[l.start..l.end]);
        n += usize::from(passes(m, code));
        m = m.after(code);
        at = l.end;
    }
    n
}

// How many heads of the part have a slot; how many are rep.
pub fn slots_in(part: &[u8]) -> usize
    ensures number { result ≡ slots_in (lex part.now) }
    ensures few { result ≤ length part.now }
{
    count(
        part,
        |m, code| m == Mode::Head && matches!(code, NBR | NBR_RANGE | NBR_LAG),
    )
}

pub fn reps_in(part: &[u8]) -> usize
    ensures number { result ≡ reps_in (lex part.now) }
    ensures few { result ≤ length part.now }
{
    count(part, |m, code| m == Mode::Head && code == REP)
}

// How many words the part has in that mode.
pub fn names_in(part: &[u8], mode: Mode) -> usize
    ensures { result ≡ length (words_in (number_of mode) 0 (lex part.now)) }
{
    count(part, |m, code| m == mode && code < OPENING)
}

// Where no bracket is open a top-level form begins.
pub fn form_start(depth: usize, top: usize, start: usize) -> usize
    ensures { result ≡ cond (eqb depth 0) start top }
{
    if depth == 0 { start } else { top }
}
