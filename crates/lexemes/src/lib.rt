// The tokens of a text, one at a time: the next behind a place, the last before it.
#![tactic(auto)]

ghost use Rattle.std.specs.Prelude.{◌≡◌, reverse, ◌+◌, ◌-◌, ◌≤◌, ◌<◌, length, take, drop};
ghost use Rattle.notation.specs.Text.{byte_kind};
ghost use Rattle.lexemes.specs.Lexeme.{is_blank, in_word, blank_size, word_size, kind_of, next_lexeme, last_lexeme, depth_by};

#[derive(Clone, Copy, PartialEq, Eq)]
pub enum Kind {
    Opening,
    Closing,
    Word,
}

// A token, whose bytes are start..end.
#[derive(Clone, Copy)]
pub struct Lexeme {
    pub kind: Kind,
    pub start: usize,
    pub end: usize,
}

// A space, and both bytes of a line end.
#[tactic(auto, unfolding(notation::specs::Text::byte_kind))]
fn is_blank(b: u8) -> bool
    ensures { result ≡ is_blank b }
{
    matches!(b, b' ' | b'\n' | b'\r')
}

// Whether a byte is part of a word.
#[tactic(auto, unfolding(notation::specs::Text::byte_kind))]
fn in_word(b: u8) -> bool
    ensures { result ≡ in_word b }
{
    !matches!(b, b' ' | b'\n' | b'\r' | b'(' | b')')
}

// The kind of a token that begins with that byte, which is no blank.
#[tactic(auto, unfolding(notation::specs::Text::byte_kind))]
fn kind_of(b: u8) -> Kind
    ensures { result ≡ kind_of (byte_kind b) }
{
    match b {
        b'(' => Kind::Opening,
        b')' => Kind::Closing,
        _ => Kind::Word,
    }
}

// How many blanks lead; how many bytes of a word lead, how many end it.
#[tactic(auto, unfolding(crate::specs::Lexeme::blank_size))]
fn blanks_at_front(s: &[u8]) -> usize
    ensures size { result ≡ blank_size s.now }
    ensures within { result ≤ length s.now }
{
    s.iter().take_while(|b| is_blank(**b)).count()
}

#[tactic(auto, unfolding(crate::specs::Lexeme::word_size))]
fn word_at_front(s: &[u8]) -> usize
    ensures size { result ≡ word_size s.now }
    ensures within { result ≤ length s.now }
{
    s.iter().take_while(|b| in_word(**b)).count()
}

#[tactic(auto, unfolding(crate::specs::Lexeme::word_size))]
fn word_at_end(s: &[u8]) -> usize
    ensures size { result ≡ word_size (reverse s.now) }
    ensures within { result ≤ length s.now }
{
    s.iter().rev().take_while(|b| in_word(**b)).count()
}

// The token that begins at or behind `at`.
pub fn next(s: &[u8], at: usize) -> Option<Lexeme>
    requires { at ≤ length s.now }
    ensures { result ≡ next_lexeme s.now at }
{
    let start = at + blanks_at_front(&s[at..]);
    let kind = kind_of(*s.get(start)?);
    let end = match kind {
        Kind::Opening | Kind::Closing => start + 1,
        // its first byte is known to be a word's
        Kind::Word => start + 1 + word_at_front(&s[start + 1..]),
    };
    Some(Lexeme { kind, start, end })
}

// The token that ends at or before `at`: one loop over what is left before it.
#[tactic(auto, using(crate::proofs::Back::last_blank, crate::proofs::Back::last_left, crate::proofs::Back::last_right), unfolding(notation::specs::Text::byte_kind))]
pub fn last(s: &[u8], at: usize) -> Option<Lexeme>
    requires { at ≤ length s.now }
    ensures { result ≡ last_lexeme s.now at }
{
    let mut rest = &s[..at];
    while let [front @ .., b] = rest {
        match b {
            b' ' | b'\n' | b'\r' => rest = front,
            b'(' => return Some(Lexeme {
                kind: Kind::Opening,
                start: front.len(),
                end: rest.len(),
            }),
            b')' => return Some(Lexeme {
                kind: Kind::Closing,
                start: front.len(),
                end: rest.len(),
            }),
            _ => return Some(Lexeme {
                kind: Kind::Word,
                start: front.len() - word_at_end(front),
                end: rest.len(),
            }),
        }
    }
    None
}

// The brackets that are open behind a token of that kind.
pub fn depth_after(d: usize, kind: Kind) -> usize
    requires { d + 1 < 18446744073709551616 }
    ensures { result ≡ depth_by d kind }
{
    match kind {
        Kind::Opening => d + 1,
        Kind::Closing => d.saturating_sub(1),
        Kind::Word => d,
    }
}
