// The sizes and places that code above shares, each said once. The definitions have names of their own for them, and a
// proof that code meets its contract fails where the two differ.
#![tactic(auto)]

// Devices, senders, slots of a message, variables of a device: sixteen each.
pub const DEVICES: usize = 16;

// A cell with no number in it: the mark of document 01.
pub const MARK: i32 = -2147483648;

// Its 32 bits, as a program has a constant.
pub const MARK_BITS: u32 = 2147483648;

// A device's cells: its variables, then its sensors, a row heard from each sender, a row pending to each hearer, a row of ages.
pub const ROW: usize = 16;

// Its slots, those behind its first cell.
pub const SLOTS: usize = ROW - 1;

pub const SENSORS: usize = 16;

pub const HEARD: usize = 17;

pub const PENDING: usize = HEARD + DEVICES * ROW;

// The age of what was heard from each sender.
pub const AGES: usize = PENDING + DEVICES * ROW;

// The rows of a device: heard, pending, and that of the ages.
pub const ROWS: usize = 2 * DEVICES + 1;

pub const BLOCK: usize = HEARD + ROWS * ROW;

// What a round reads of them: all but the messages, with the ages where those begin.
pub const OWN: usize = PENDING + DEVICES;

// The ages in that.
pub const LAGS: usize = PENDING;

// A network.
pub const CELLS: usize = DEVICES * BLOCK;

// A link's distance, at most.
pub const FARTHEST: i32 = 1000000;

// The age at which what was heard fades, and the oldest age before it.
pub const FADES_AT: i32 = 3;

pub const OLDEST: i32 = FADES_AT - 1;

// A program's nodes.
pub const NODES: usize = 256;

// Its definitions, at most.
pub const DEFINITIONS: usize = 32;

// One for each number that a byte can be: what any byte may index.
pub const BYTES: usize = 256;

// A round's state: variables, then slots sent, then the fault, 0 or one more than the node that divided by 0.
pub const STATE: usize = 64;

pub const SENT: usize = 16;

pub const FAULT: usize = 32;

// Numbers in an answer.
pub const ANSWER: usize = 2;

// Bytes of a file that replay reads, at most, and of a line that it writes.
pub const FILE: usize = 4096;

pub const LINE: usize = 80;

// Bytes of the shortest event in a list, and how many events a file can have at the most.
pub const EVENT: usize = 4;

pub const EVENTS: usize = FILE / EVENT;
