// Refusal 20: whether every name of a program's text resolves, by one pass over its tokens.
#![tactic(auto)]

ghost use Rattle.std.specs.Prelude.{◌≡◌, not, ◌&&◌, []};
ghost use Rattle.notation.specs.Words.{one_of, own_name};
ghost use Rattle.translation.specs.Names.{known};
ghost use Rattle.notation.proofs.Lexing.{lex};
ghost use Rattle.lexemes.specs.Lexeme.{token_by};
ghost use Rattle.token_scans.specs.Scan.{words_in, definitions_in};
ghost use Rattle.token_scans.specs.Sought.{number_of};
ghost use Rattle.bindings.specs.Good.{word_good, token_good, names_pass};

use lexemes::Kind;
use token_scans::Mode;
use vocabulary::{INF, NAME, NUMBER};

// Below, `earlier` is the text before the top-level form that a word stands in, `form` that form as far as the word.

// A name that is used where only its definition counts: behind an opening bracket, or folded by.
fn known_name(earlier: &[u8], w: &[u8]) -> bool
    ensures { result ≡ known (definitions_in (lex earlier.now)) w.now }
{
    vocabulary::code(w) != NAME || token_scans::name_in(earlier, Mode::DefinitionName, w).is_some()
}

// A name that is given: it is no word of the notation, and not among the words that the part has in that mode.
fn new_name(part: &[u8], mode: Mode, w: &[u8]) -> bool
    ensures { result ≡ (own_name w.now && not (one_of w.now (words_in (number_of mode) 0 (lex part.now)))) }
{
    vocabulary::code(w) == NAME && token_scans::name_in(part, mode, w).is_none()
}

// A word that stands alone: a number, or a name that is bound around it.
fn bound_word(form: &[u8], w: &[u8]) -> bool
    ensures { result ≡ word_good [] (lex form.now) 0 w.now }
{
    match vocabulary::code(w) {
        INF | NUMBER => true,
        _ => {
            rep_around::rep_of(form, w).is_some()
                || token_scans::name_in(form, Mode::Parameters, w).is_some()
        }
    }
}

#[tactic(auto, using(crate::proofs::Goods::own_code), unfolding(crate::specs::Good::word_good))]
fn word_good(earlier: &[u8], form: &[u8], mode: Mode, w: &[u8]) -> bool
    ensures { result ≡ word_good (definitions_in (lex earlier.now)) (lex form.now) (number_of mode) w.now }
{
    match mode {
        Mode::Elsewhere => bound_word(form, w),
        Mode::Head | Mode::FoldFunction => known_name(earlier, w),
        Mode::DefinitionName => new_name(earlier, mode, w),
        Mode::Parameters => new_name(form, mode, w),
        Mode::BoundName => vocabulary::code(w) == NAME,
        Mode::BeforeParameters => true,
    }
}

fn token_good(earlier: &[u8], form: &[u8], mode: Mode, kind: Kind, w: &[u8]) -> bool
    ensures { result ≡ token_good (definitions_in (lex earlier.now)) (lex form.now) (number_of mode) (token_by kind w.now) }
{
    match kind {
        Kind::Opening | Kind::Closing => true,
        Kind::Word => word_good(earlier, form, mode, w),
    }
}

// Whether the names of a text resolve: refusal 20 is for a text of the grammar where they do not.
pub fn names_good(s: &[u8]) -> bool
    ensures { result ≡ names_pass [] [] 0 0 (lex s.now) }
{
    let mut top: usize = 0;
    let mut at: usize = 0;
    let mut depth: usize = 0;
    let mut mode = Mode::Elsewhere;
    while let Some(l) = lexemes::next(s, at) {
        let w = &s[l.start..l.end];
        top = token_scans::form_start(depth, top, l.start);
        if !token_good(&s[..top], &s[top..l.start], mode, l.kind, w) {
            return false;
        }
        depth = lexemes::depth_after(depth, l.kind);
        mode = mode.after(vocabulary::token_code(l.kind, w));
        at = l.end;
    }
    true
}
