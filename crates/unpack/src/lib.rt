// The parts of a node's word: its form, its item (operator, parameter, variable or slot), the nodes that it names.
#![tactic(auto)]

ghost use Rattle.std.specs.Prelude.{◌≡◌, ◌/◌, ◌%◌, ◌^◌, ◌<◌};
ghost use Rattle.words.specs.Word.{node_numbers, form, item, p1, p2, p3, p4, body, count, constant_of};

// The forms, as crate words names them: those below LEAVES are leaves, those from FIELDS on give a field. Stays (d): numbers, no enum:
// they are compared by size, number the bits of sets, and a quick form is what its word grows by.
pub const CONSTANT: u8 = 0;

pub const PARAMETER: u8 = 1;

pub const VARIABLE: u8 = 2;

pub const OPERATOR: u8 = 3;

pub const SENSE: u8 = 4;

pub const REP: u8 = 5;

pub const IF: u8 = 6;

pub const MUX: u8 = 7;

pub const FOLD_BY: u8 = 8;

pub const CALL: u8 = 9;

pub const FOLD: u8 = 10;

pub const LEAST: u8 = 11;

pub const PAIR: u8 = 12;

pub const NBR: u8 = 16;

pub const RANGE: u8 = 17;

pub const LAG: u8 = 18;

pub const FIELD_IF: u8 = 19;

pub const FIELD_OPERATOR: u8 = 20;

pub const LEAVES: u8 = 3;

pub const FIELDS: u8 = 16;

pub fn form_of(w: u64) -> u8
    ensures { result ≡ form w }
{
    (w % 32) as u8
}

pub fn item_of(w: u64) -> u8
    ensures { result ≡ item w }
{
    ((w >> 5) % 16) as u8
}

// The number of a node, from bit AT on.
fn node_at<const AT: u32>(w: u64) -> u16
    requires { AT < 64 }
    ensures { result ≡ w / 2 ^ AT % node_numbers }
{
    ((w >> AT) % 1024) as u16
}

pub fn first(w: u64) -> u16
    ensures { result ≡ p1 w }
{
    node_at::<9>(w)
}

pub fn second(w: u64) -> u16
    ensures { result ≡ p2 w }
{
    node_at::<19>(w)
}

pub fn third(w: u64) -> u16
    ensures { result ≡ p3 w }
{
    node_at::<29>(w)
}

pub fn fourth(w: u64) -> u16
    ensures { result ≡ p4 w }
{
    node_at::<39>(w)
}

pub fn body_of(w: u64) -> u16
    ensures { result ≡ body w }
{
    node_at::<49>(w)
}

pub fn count_of(w: u64) -> u8
    ensures { result ≡ count w }
{
    ((w >> 59) % 8) as u8
}

pub fn constant_of(w: u64) -> i32
    ensures { result ≡ constant_of w }
{
    ((w >> 32) as i64 + i64::from(i32::MIN)) as i32
}
