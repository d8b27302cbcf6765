// The levels of the machine that reads a text, as numbers (specs/Levels): how a token moves a level, and the window of levels that a pass over the text holds.
#![tactic(auto)]

ghost use Rattle.std.specs.Prelude.{◌≡◌, ◌+◌, ◌≤◌, ◌<◌, length, replicate, MatchResult};
ghost use Rattle.lexemes.specs.Lexeme.{token_by, depth_by};
ghost use Rattle.lexemes.specs.declared.Kind.TheVariants.{Opening, Closing, Word};
ghost use Rattle.levels.specs.Levels.{move_of, inner as inner_of, window, put_at, level_in, advanced, level_front, judged, Numbered, Takes, Refuses};

use lexemes::Kind;

// How many levels a pass holds.
pub const WINDOW: usize = 4096;

// The numbers of levels that the code speaks of: a program is to come, or nothing; a head, or that of an outermost form; a definition's name, its parameters, four at most.
// Stays (d): numbers, no enum: the table of moves has a row for each, and gives the next as a letter.
const PROGRAM: u8 = 0;

pub const NOTHING: u8 = 1;

const HEAD: u8 = 2;

const FORM_HEAD: u8 = 3;

const NAME: u8 = 11;

const PARAMETERS: u8 = 12;

const FOUR: u8 = 17;

// The number of a level that is not held.
const UNHELD: u8 = 18;

// The moves that leave no level: a definition begins, the token is refused.
const DEFINITION: u8 = 18;

pub const REFUSED: u8 = 31;

// How a token moves a level: a row a level, a column a token (operators, reserved words, names, numbers, other words, the brackets). @ and the letters are the levels 0 to 18,
// ^ is 30, the level ends, _ is 31, the token is refused.
fn moved(c: u8, k: u8) -> u8
    requires { (c < 18) × (k < 24) }
    ensures { result ≡ move_of c k }
{
    let moves = b"\
        __________________AAA_A_\
        ________________________\
        GGGGGGGGG_FIHHFEEJ_D____\
        GGGGGGGGGRFIHHFEEJ_D____\
        __________________DDD_D^\
        _______________________^\
        __________________EEE_E_\
        __________________FFF_F_\
        __________________GGG_G_\
        _________GGGGGGGGGGG____\
        GGGGGGGGG__________G____\
        _________LLLLLLLLLLL____\
        ______________________F_\
        _______________________^\
        _________MMMMMMMMMMM___^\
        _________NNNNNNNNNNN___^\
        _________OOOOOOOOOOO___^\
        _________PPPPPPPPPPP___^";
    moves[(c as usize) * 24 + (k as usize)] - 64
}

// The move at a token, 0 where the level is not held.
fn judge(c: u8, kind: Kind, w: &[u8]) -> u8
    requires { c ≤ 18 }
    ensures { result ≡ judged c kind w.now }
{
    if c == UNHELD {
        return 0;
    }
    moved(c, vocabulary::token_code(kind, w))
}

// How much of a refused token is shared: of a word what begins one that stands alone, a name, or a head or function.
fn front(c: u8, kind: Kind, w: &[u8]) -> usize
    requires { c < 18 }
    ensures { result ≡ level_front c (token_by kind w.now) }
{
    if kind != Kind::Word {
        return 0;
    }
    match c {
        0 | 4 | 6 | 7 | 8 => fronts::atom_front(w),
        9 | 11 | 14 | 15 | 16 | 17 => fronts::name_front(w),
        2 | 3 | 10 => fronts::function_front(w),
        _ => 0,
    }
}

// The level within one, behind an opening bracket.
fn inner(c: u8) -> u8
    ensures inner { result ≡ inner_of c }
    ensures number { result < 18 }
{
    match c {
        PROGRAM => FORM_HEAD,
        PARAMETERS => FOUR,
        _ => HEAD,
    }
}

// The levels that a pass holds, those from the depth `base` on.
#[derive(Drop)]
pub struct Window {
    pub levels: [u8; WINDOW],
    pub base: usize,
    ghost numbered: { Numbered levels },
}

impl Window {
    pub fn new(base: usize) -> Window
        ensures levels { result.levels ≡ replicate window 0 }
        ensures numbered { Numbered result.levels }
        ensures base { result.base ≡ base }
    {
        Window {
            levels: [0; WINDOW],
            base,
        }
    }

    // The level of that depth.
    pub fn level(&self, depth: usize) -> u8
        ensures level { result ≡ level_in self.now.base depth self.now.levels }
        ensures number { result ≤ 18 }
    {
        match depth.checked_sub(self.base) {
            Some(i) if i < WINDOW => self.levels[i],
            _ => UNHELD,
        }
    }

    fn put(&mut self, depth: usize, c: u8)
        requires { c < 18 }
        ensures levels { self.new.levels ≡ put_at self.old.base depth c self.old.levels }
        ensures base { self.new.base ≡ self.old.base }
    {
        if let Some(i) = depth.checked_sub(self.base)
            && i < WINDOW
        {
            self.levels[i] = c;
        }
    }

    // The levels and the depth behind a token that is taken, on a level of number c with the move m.
    fn advance(&mut self, depth: usize, kind: Kind, c: u8, m: u8) -> usize
        requires depth { depth < 18446744073709551615 }
        requires closes { kind ≡ Closing → 0 < depth }
        requires opens { kind ≡ Opening → m < 18 }
        requires word { kind ≡ Word → m ≤ 18 }
        ensures depth { result ≡ depth_by depth kind }
        ensures levels { self.new.levels ≡ advanced self.old.base depth kind c m self.old.levels }
        ensures base { self.new.base ≡ self.old.base }
    {
        match kind {
            Kind::Opening => {
                self.put(depth, m);
                self.put(depth + 1, inner(c));
                depth + 1
            }
            Kind::Closing => depth - 1,
            Kind::Word => {
                if m == DEFINITION {
                    self.put(depth, NAME);
                    self.put(0, PROGRAM);
                } else {
                    self.put(depth, m);
                }
                depth
            }
        }
    }

    // The depth behind a token with those bytes; or how much of it is shared, if it is refused.
    pub fn take(&mut self, depth: usize, kind: Kind, w: &[u8]) -> Result<usize, usize>
        requires { depth < 18446744073709551615 }
        ensures taken { MatchResult result
            (λ d. Takes self.old.base depth kind w.now self.old.levels self.new.levels d)
            (λ n. Refuses self.old.base depth kind w.now self.old.levels n) }
        ensures numbered { Numbered self.new.levels }
        ensures base { self.new.base ≡ self.old.base }
    {
        let c = self.level(depth);
        let m = judge(c, kind, w);
        if m == REFUSED {
            return Err(front(c, kind, w));
        }
        if kind == Kind::Closing && depth == 0 {
            return Err(0);
        }
        Ok(self.advance(depth, kind, c, m))
    }
}
