// A word of a text as a number, and a token; the bits of a number.
#![tactic(auto)]

ghost use Rattle.std.specs.Prelude.{◌≡◌, true, ◌<◌, ◌≤◌, length, map};
ghost use Rattle.notation.specs.Words.{index_of, value_from, is_count, is_number, bits_of};
ghost use Rattle.lexemes.specs.Lexeme.{token_by};
ghost use Rattle.vocabulary.specs.Codes.{code_of, place_of, token_code};

use lexemes::Kind;

// What a word is, by its code: below DEF an operator, then a reserved word, another name, another number, no word of the notation.
// Stays (d): numbers, no enum: the table of moves (crate levels) has a column for each, and operators go by their own.
pub const DEF: u8 = 9;

pub const SENSE: u8 = 10;

pub const REP: u8 = 11;

pub const IF: u8 = 12;

pub const MUX: u8 = 13;

pub const NBR: u8 = 14;

pub const NBR_RANGE: u8 = 15;

pub const NBR_LAG: u8 = 16;

pub const FOLD: u8 = 17;

pub const INF: u8 = 18;

pub const NAME: u8 = 19;

pub const NUMBER: u8 = 20;

pub const NONE: u8 = 21;

// The codes of brackets.
pub const OPENING: u8 = 22;

pub const CLOSING: u8 = 23;

// The words of the notation, in the order of their codes; static, so that no call copies them.
static OPERATORS: [&[u8]; 9] = [b"+", b"-", b"*", b"/", b"<", b">", b">=", b"==", b"!="];

static RESERVED: [&[u8]; 10] = [
    b"def",
    b"sense",
    b"rep",
    b"if",
    b"mux",
    b"nbr",
    b"nbr-range",
    b"nbr-lag",
    b"fold-hood*",
    b"inf",
];

// Which of those words it is, their number for none.
fn seek(words: &[&[u8]], w: &[u8]) -> u8
    requires { length words.now < 256 }
    ensures index { result ≡ index_of w.now (map (λ k. k.now) words.now) }
    ensures within { result ≤ length words.now }
{
    words
        .iter()
        .position(|known| w == *known)
        .unwrap_or(words.len()) as u8
}

// Which operator or reserved word it is, NAME for none.
fn place(w: &[u8]) -> u8
    requires { 0 < length w.now }
    ensures { result ≡ place_of w.now }
{
    if fronts::is_letter(w[0]) {
        return DEF + seek(&RESERVED, w);
    }
    let k = seek(&OPERATORS, w);
    if k < DEF { k } else { NAME }
}

// 0 to 8 an operator, 9 to 18 a reserved word, 19 another name, 20 another number, 21 no word of the notation.
pub fn code(w: &[u8]) -> u8
    ensures { result ≡ code_of w.now }
{
    let [first, ..] = w else {
        return NONE;
    };
    let k = place(w);
    if k < NAME {
        k
    } else if fronts::atom_front(w) != w.len() {
        NONE
    } else if fronts::is_letter(*first) {
        NAME
    } else {
        NUMBER
    }
}

// The value of digits.
fn value(w: &[u8]) -> u32
    requires { is_count w.now ≡ true }
    ensures { result ≡ value_from 0 w.now }
{
    let mut n: u32 = 0;
    for d in w {
        n = n * 10 + u32::from(*d - b'0');
    }
    n
}

// The bits of a number; inf is the greatest.
pub fn bits(w: &[u8]) -> u32
    requires { is_number w.now ≡ true }
    ensures { result ≡ bits_of w.now }
{
    match w[0] {
        b'-' => value(&w[1..]).wrapping_neg(),
        first if fronts::is_letter(first) => i32::MAX as u32,
        _ => value(w),
    }
}

// The code of a token of that kind, with those bytes.
pub fn token_code(kind: Kind, w: &[u8]) -> u8
    ensures { result ≡ token_code (token_by kind w.now) }
{
    match kind {
        Kind::Opening => OPENING,
        Kind::Closing => CLOSING,
        Kind::Word => code(w),
    }
}
