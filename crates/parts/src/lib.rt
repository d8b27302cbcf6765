// The parts of a program's table, each appended to it: the node of a word that stands alone, and the node of a form.
#![tactic(auto)]

ghost use Rattle.std.specs.Prelude.{◌≡◌, suc, ◌++◌, ◌+◌, ◌≤◌, length};
ghost use Rattle.notation.specs.Words.{index_of, is_number};
ghost use Rattle.notation.proofs.Lexing.{lex};
ghost use Rattle.translation.specs.Numbering.{byte, fold_part};
ghost use Rattle.token_scans.specs.Scan.{definitions_in, slots_in};
ghost use Rattle.tabling.specs.Fields.{flat_bytes};
ghost use Rattle.parts.specs.Bytes.{word_bytes, form_bytes};

use forms::Form;
use rep_around::Meant;
use shapes::Kind;
use table_writer::Table;
use token_scans::Mode;
use vocabulary::{DEF, FOLD, IF, INF, MUX, NAME, NBR, NBR_LAG, NBR_RANGE, NUMBER, REP, SENSE};

// Below, `earlier` is the text before the top-level form that a word or a form stands in.

// A number as a byte.
pub fn byte_of(n: usize) -> u8
    ensures { result ≡ byte n }
{
    n.min(255) as u8
}

fn is_number(w: &[u8]) -> bool
    ensures { result ≡ is_number w.now }
{
    matches!(vocabulary::code(w), INF | NUMBER)
}

// A word behind `form`, which are the bytes of its top-level form before it.
pub fn put_word(table: &mut Table, earlier: &[u8], form: &[u8], w: &[u8])
    requires { length table.old + 8 ≤ 2560 }
    ensures { table.new ≡ table.old ++ word_bytes earlier.now form.now w.now }
{
    if is_number(w) {
        table.constant(vocabulary::bits(w));
        return;
    }
    match rep_around::meaning_of(earlier, form, w) {
        Meant::Variable(n) => table.leaf(Kind::Variable, byte_of(n)),
        Meant::Parameter(n) => table.leaf(Kind::Parameter, byte_of(n)),
    }
}

// The slot that a form takes, from 1, by the text before it.
fn slot(before: &[u8]) -> u8
    ensures { result ≡ byte (suc (slots_in (lex before.now))) }
{
    byte_of(token_scans::slots_in(before) + 1)
}

// The number of a definition, or how many there are.
fn definition(earlier: &[u8], w: &[u8]) -> u8
    ensures { result ≡ byte (index_of w.now (definitions_in (lex earlier.now))) }
{
    match token_scans::name_in(earlier, Mode::DefinitionName, w) {
        Some(n) => byte_of(n),
        None => byte_of(token_scans::names_in(earlier, Mode::DefinitionName)),
    }
}

// A fold by the word behind its head: an operator, or a definition.
fn put_fold(table: &mut Table, earlier: &[u8], w: &[u8], operands: &[u8])
    requires { length table.old + (5 + length operands.now) ≤ 2560 }
    ensures { table.new ≡ table.old ++ flat_bytes (fold_part (definitions_in (lex earlier.now)) w.now operands.now) }
{
    let code = vocabulary::code(w);
    if code < DEF {
        table.node_with(Kind::Fold, code, operands);
    } else {
        table.node_with(Kind::FoldBy, definition(earlier, w), operands);
    }
}

// A form with its operands; `before` is the text before its bracket.
pub fn put_form(table: &mut Table, earlier: &[u8], before: &[u8], form: Form<'_>, operands: &[u8])
    requires { length table.old + (5 + length operands.now) ≤ 2560 }
    ensures { table.new ≡ table.old ++ form_bytes earlier.now before.now form.entry.head.now form.entry.second.now operands.now }
{
    let code = vocabulary::code(form.head);
    if code < DEF {
        table.node_with(Kind::Operator, code, operands);
        return;
    }
    match code {
        SENSE => table.node(Kind::Sense, operands),
        REP => table.node_with(Kind::Rep, byte_of(token_scans::reps_in(before)), operands),
        IF => table.node(Kind::If, operands),
        MUX => table.node(Kind::Mux, operands),
        NBR => table.node_with(Kind::Nbr, slot(before), operands),
        NBR_RANGE => table.node_with(Kind::Range, slot(before), operands),
        NBR_LAG => table.node_with(Kind::Lag, slot(before), operands),
        FOLD => put_fold(table, earlier, form.second, operands),
        NAME => table.node_with(Kind::Call, definition(earlier, form.head), operands),
        _ => table.node(Kind::Call, operands),
    }
}
