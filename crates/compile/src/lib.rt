// From a text of the grammar to its table, in one pass over its tokens: a node is written where its expression ends, a definition where its bracket closes. What waits for the node that names it
// is a number on a stack. Nothing is kept of the text: whatever a node needs is found by a scan of what stands before it.
#![tactic(auto)]

ghost use Rattle.std.specs.Prelude.{◌≡◌, ◌&&◌, ◌||◌, [], reverse, ◌+◌, ◌-◌, ◌≤◌, eqb, ltb, length, take};
ghost use Rattle.notation.specs.Words.{between};
ghost use Rattle.notation.proofs.Lexing.{lex};
ghost use Rattle.notation.specs.Grammar.{closing};
ghost use Rattle.lexemes.specs.Lexeme.{token_of, Parted};
ghost use Rattle.vocabulary.specs.Codes.{head_by_code};
ghost use Rattle.tabling.specs.Emit.{word_part, around, leads, close_form, is_definition, with_node, with_definition, emitted};
ghost use Rattle.token_scans.specs.Scan.{parameters_in};
ghost use Rattle.token_scans.specs.Sought.{number_of};
ghost use Rattle.compile.specs.Writes.{last_of, pushed, Able, Adds, Compiles};

use lexemes::{Kind, Lexeme};
use table_writer::Table;
use token_scans::Mode;
use vocabulary::{FOLD, REP};

// The numbers that wait, the last first to go, and how many nodes and definitions the table has.
// Stays (c): the table is beside it, since the borrow checker covers no call that lends the table to be written and the numbers to be read where both are fields of one struct.
#[derive(Clone, Copy)]
pub struct Waiting {
    numbers: [u8; 257],
    len: usize,
    nodes: usize,
    defs: usize,
}

impl Waiting {
    fn last(&self) -> u8
        requires { self.now.len ≤ 257 }
        ensures { result ≡ last_of self.now.numbers self.now.len }
    {
        if self.len == 0 {
            0
        } else {
            self.numbers[self.len - 1]
        }
    }

    // A node more, behind the first `from` numbers.
    fn push(&mut self, from: usize)
        requires { (from ≤ 256) × (self.old.nodes ≤ 256) }
        ensures { self.new ≡ pushed self.old from }
    {
        self.numbers[from] = parts::byte_of(self.nodes);
        self.len = from + 1;
        self.nodes += 1;
    }

    // More nodes or definitions than a table holds.
    fn is_full(&self) -> bool
        ensures { result ≡ (ltb 256 self.now.nodes || ltb 32 self.now.defs) }
    {
        self.nodes > 256 || self.defs > 32
    }
}

// How many operands a form has: its items but its head, the name that a rep binds, the function of a fold.
fn operands_of(items: usize, code: u8) -> usize
    ensures { result ≡ items - leads (head_by_code code) }
{
    items.saturating_sub(match code {
        REP | FOLD => 2,
        _ => 1,
    })
}

// A word that stands alone, a..b.
fn word_done(table: &mut Table, waiting: &mut Waiting, s: &[u8], top: usize, a: usize, b: usize)
    requires { (top ≤ a) × (a ≤ b) × (b ≤ length s.now) × Able table.old waiting.old }
    ensures { Adds table.old waiting.old table.new waiting.new
        (with_node 0 (λ ns. word_part (lex (take top s.now)) (lex (between top a s.now)) (between a b s.now))) }
{
    parts::put_word(table, &s[..top], &s[top..a], &s[a..b]);
    waiting.push(waiting.len);
}

// A form that ends at `at`.
fn form_done(table: &mut Table, waiting: &mut Waiting, s: &[u8], top: usize, at: usize)
    requires { (top ≤ at) × (at ≤ length s.now) × Parted s.now top × Able table.old waiting.old }
    ensures { Adds table.old waiting.old table.new waiting.new
        (close_form (lex (take top s.now)) (around 0 0 [] [] (reverse (lex (between top at s.now))))) }
{
    let Some(form) = forms::form_of(&s[top..at]) else {
        return;
    };
    let count = operands_of(form.items, vocabulary::code(form.head));
    let from = waiting.len.saturating_sub(count);
    let operands = &waiting.numbers[from..waiting.len];
    parts::put_form(table, &s[..top], &s[..top + form.open], form, operands);
    waiting.push(from);
}

// A definition that ends at `at`.
fn definition_done(table: &mut Table, waiting: &mut Waiting, s: &[u8], top: usize, at: usize)
    requires { (top ≤ at) × (at ≤ length s.now) × Able table.old waiting.old }
    ensures { Adds table.old waiting.old table.new waiting.new
        (with_definition (length (parameters_in (lex (between top at s.now))))) }
{
    let count = token_scans::names_in(&s[top..at], Mode::Parameters);
    table.definition(parts::byte_of(count), waiting.last());
    waiting.len = waiting.len.saturating_sub(1);
    waiting.defs += 1;
}

// A closing bracket at `at`: it ends a list of parameters, a definition or a form.
fn closing_done(
    table: &mut Table,
    waiting: &mut Waiting,
    s: &[u8],
    top: usize,
    at: usize,
    mode: Mode,
    depth: usize,
)
    requires { (top ≤ at) × (at ≤ length s.now) × Parted s.now top × Able table.old waiting.old }
    ensures { Adds table.old waiting.old table.new waiting.new
        (emitted (lex (take top s.now)) (lex (between top at s.now)) (number_of mode) depth closing) }
{
    if mode == Mode::Parameters {
        return;
    }
    if depth == 1 && forms::is_definition(&s[top..at]) {
        definition_done(table, waiting, s, top, at);
        return;
    }
    form_done(table, waiting, s, top, at);
}

fn token_done(
    table: &mut Table,
    waiting: &mut Waiting,
    s: &[u8],
    top: usize,
    mode: Mode,
    depth: usize,
    l: Lexeme,
)
    requires { (top ≤ l.start) × (l.start ≤ l.end) × (l.end ≤ length s.now) × Parted s.now top × Able table.old waiting.old }
    ensures { Adds table.old waiting.old table.new waiting.new
        (emitted (lex (take top s.now)) (lex (between top l.start s.now)) (number_of mode) depth (token_of s.now l)) }
{
    match l.kind {
        Kind::Opening => {}
        Kind::Closing => closing_done(table, waiting, s, top, l.start, mode, depth),
        Kind::Word => {
            if mode == Mode::Elsewhere {
                word_done(table, waiting, s, top, l.start, l.end);
            }
        }
    }
}

// The table of a text, or as much of it as the check refuses alike.
pub fn compile(s: &[u8]) -> Table
    ensures { Compiles s.now result }
{
    let mut table = Table::new();
    fill(s, &mut table);
    table
}

// The same in a table of the caller's, which is empty.
pub fn fill(s: &[u8], table: &mut Table)
    requires { table.old ≡ [] }
    ensures { Compiles s.now table.new }
{
    let mut waiting = Waiting {
        numbers: [0; 257],
        len: 0,
        nodes: 0,
        defs: 0,
    };
    let mut top: usize = 0;
    let mut at: usize = 0;
    let mut depth: usize = 0;
    let mut mode = Mode::Elsewhere;
    while let Some(l) = lexemes::next(s, at) {
        top = token_scans::form_start(depth, top, l.start);
        token_done(table, &mut waiting, s, top, mode, depth, l);
        if waiting.is_full() {
            return;
        }
        depth = lexemes::depth_after(depth, l.kind);
        mode = mode.after(vocabulary::token_code(l.kind, &s[l.start..l.end]));
        at = l.end;
    }
    table.main_node(waiting.last());
}
