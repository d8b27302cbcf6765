// Refusal 19: whether a text is in the grammar, and how much of it begins one that is. The machine that tells it has a stack as deep as the brackets nest; a pass over the text holds a
// window of its levels, and there are as many passes as windows.
#![tactic(auto)]

ghost use Rattle.std.specs.Prelude.{◌≡◌, true, false, length, MatchResult};
ghost use Rattle.notation.proofs.Machine.{run, start as outset};
ghost use Rattle.notation.proofs.Lexing.{lex};
ghost use Rattle.notation.proofs.Place.{place};
ghost use Rattle.levels.specs.Levels.{Based};
ghost use Rattle.parse.specs.Passed.{PassedBy, sooner, ends};

use levels::Window;

// What one pass found: whether the text ended where a program may, or how much of it is shared up to a refused token; and the deepest level.
#[derive(Drop)]
struct Found {
    end: Result<bool, usize>,
    deepest: usize,
}

// A pass that holds the levels from `base` on.
fn pass(s: &[u8], base: usize) -> Found
    requires { Based base }
    ensures { PassedBy s.now base result.end result.deepest }
{
    let mut window = Window::new(base);
    let mut at = 0;
    let mut depth = 0;
    let mut deepest = 0;
    while let Some(t) = lexemes::next(s, at) {
        match window.take(depth, t.kind, &s[t.start..t.end]) {
            Ok(d) => depth = d,
            Err(shared) => {
                return Found {
                    end: Err(t.start + shared),
                    deepest,
                };
            }
        }
        deepest = deepest.max(depth);
        at = t.end;
    }
    let done = depth == 0 && window.level(depth) == levels::NOTHING;
    Found {
        end: Ok(done),
        deepest,
    }
}

// Of two passes the first's end counts, or the lesser place where a token was refused.
fn sooner(a: Result<bool, usize>, b: Result<bool, usize>) -> Result<bool, usize>
    ensures { result ≡ sooner a b }
{
    match (a, b) {
        (Err(at), Err(other)) => Err(at.min(other)),
        (Err(at), Ok(_)) | (Ok(_), Err(at)) => Err(at),
        (Ok(done), Ok(_)) => Ok(done),
    }
}

// Every level in turn. A text that is refused is shared up to a place.
pub fn parse(s: &[u8]) -> Result<(), usize>
    ensures { MatchResult result
        (λ _. (ends (run outset (lex s.now)) ≡ true) × (place s.now ≡ length s.now))
        (λ at. (ends (run outset (lex s.now)) ≡ false) × (at ≡ place s.now)) }
{
    let first = pass(s, 0);
    let mut end = first.end;
    for window in 0..first.deepest / levels::WINDOW {
        end = sooner(end, pass(s, (window + 1) * levels::WINDOW).end);
    }
    match end {
        Ok(true) => Ok(()),
        Ok(false) => Err(s.len()),
        Err(at) => Err(at),
    }
}
