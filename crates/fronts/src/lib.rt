// How far a word begins one that its place allows: what stands alone, a name to bind, a function or head.
#![tactic(auto)]

ghost use Rattle.std.specs.Prelude.{◌≡◌, [], ◌∷◌, ◌≤◌, length};
ghost use Rattle.notation.specs.Words.{is_letter, name_byte, operator};
ghost use Rattle.fronts.specs.Fronts.{run, name_front, count_front, atom_front, function_front};

// The greatest number, inf.
const INF: u64 = 2147483647;

// How many bytes a name may have behind its first.
const MORE: usize = 15;

#[tactic(auto, unfolding(notation::specs::Words::is_letter))]
pub fn is_letter(b: u8) -> bool
    ensures { result ≡ is_letter b }
{
    b.is_ascii_lowercase()
}

// Whether a byte may follow the first of a name.
#[tactic(auto, unfolding(notation::specs::Words::name_byte, notation::specs::Words::is_digit))]
fn name_byte(b: u8) -> bool
    ensures { result ≡ name_byte b }
{
    is_letter(b) || b.is_ascii_digit() || b == b'-' || b == b'*'
}

// Whether a byte alone is an operator.
#[tactic(auto, unfolding(notation::specs::Words::operator))]
fn is_sign(b: u8) -> bool
    ensures { result ≡ operator (b ∷ []) }
{
    matches!(b, b'+' | b'-' | b'*' | b'/' | b'<' | b'>')
}

// How many bytes lead that may follow the first of a name.
#[tactic(auto, unfolding(crate::specs::Fronts::run))]
fn run(w: &[u8]) -> usize
    ensures run { result ≡ run name_byte w.now }
    ensures within { result ≤ length w.now }
{
    w.iter().take_while(|b| name_byte(**b)).count()
}

// How many bytes lead that a name may begin with: no more are looked at than a name may have.
#[tactic(auto, unfolding(crate::specs::Fronts::name_front))]
pub fn name_front(w: &[u8]) -> usize
    ensures { result ≡ name_front w.now }
{
    match w {
        [first, rest @ ..] if is_letter(*first) => 1 + run(&rest[..rest.len().min(MORE)]),
        _ => 0,
    }
}

// How many digits lead before their value passes inf.
#[tactic(auto, unfolding(notation::specs::Words::is_digit))]
fn count_front(w: &[u8]) -> usize
    ensures front { result ≡ count_front 0 w.now }
    ensures within { result ≤ length w.now }
{
    let mut n: u64 = 0;
    for (i, d) in w.iter().enumerate() {
        if !d.is_ascii_digit() {
            return i;
        }
        n = n * 10 + u64::from(*d - b'0');
        if n > INF {
            return i;
        }
    }
    w.len()
}

// Of what stands alone.
#[tactic(auto, unfolding(crate::specs::Fronts::atom_front, crate::specs::Fronts::count_front))]
pub fn atom_front(w: &[u8]) -> usize
    ensures { result ≡ atom_front w.now }
{
    match w {
        [first, ..] if is_letter(*first) => name_front(w),
        [b'-', rest @ ..] => 1 + count_front(rest),
        _ => count_front(w),
    }
}

// Of functions and heads: >= == != have two bytes, the other operators one.
#[tactic(auto, unfolding(crate::specs::Fronts::function_front, notation::specs::Words::is_letter))]
pub fn function_front(w: &[u8]) -> usize
    ensures { result ≡ function_front w.now }
{
    match w {
        [first, ..] if is_letter(*first) => name_front(w),
        [b'>' | b'=' | b'!', b'=', ..] => 2,
        [b'>' | b'=' | b'!', ..] => 1,
        [first, ..] if is_sign(*first) => 1,
        _ => 0,
    }
}
