// The fields of a view, written into a buffer that the caller lends: numbers, labels, values, the result and a record.
#![tactic(auto)]

ghost use Rattle.std.specs.Prelude.{◌≡◌, [], ◌∷◌, ◌≤◌, length, replicate};
ghost use Rattle.labels.specs.Tables.{principals, whole};
ghost use Rattle.view_fields.specs.Fields.{table_width, label_width, value_width, record_width, little_endian};
ghost use Rattle.view_fields.specs.Fields.{label_field, value_field, datum_field, contents_field, record_field};
ghost use Rattle.view_fields.specs.Fields.{ending_number, result_field, kind_byte};
ghost use Rattle.view_fields.specs.Writing.{over, numbers, triple_field};

use labels::{Label, Table};
use model::{Contents, Datum, Ending, Kind, Record};

// A value as a view has it: its kind, which is a byte there, and two words as wide as a table.
#[derive(Clone, Copy)]
pub struct Triple {
    pub kind: u8,
    pub first: Table,
    pub second: Table,
}

// ---- the widths and offsets of fields, in bytes

// A 16-bit number and two of them, a word of a table and two of them, a table, a label, and a value.
pub const NUMBER: usize = 2;

const TWO_NUMBERS: usize = 2 * NUMBER;

const WORD: usize = 8;

const TWO_WORDS: usize = 2 * WORD;

const THREE_WORDS: usize = 3 * WORD;

pub const TABLE: usize = labels::TABLE_WORDS * WORD;

pub const LABEL: usize = 2 * TABLE;

pub const VALUE: usize = 2 + 2 * TABLE;

// Of a value: what is behind the kind and a 0 byte.
const FIRST: usize = 2;

const SECOND: usize = FIRST + TABLE;

// Of a record: its label and its value behind the place and the kind, and its width.
const RECORD_LABEL: usize = 2;

const RECORD_VALUE: usize = RECORD_LABEL + LABEL;

pub const RECORD: usize = RECORD_VALUE + VALUE;

// ---- numbers, labels and values

// Writes the lowest `width` bytes of `n`, little-endian.
fn write_number(n: u64, width: usize, out: &mut [u8])
    requires { width ≤ length out.old }
    ensures { out.new ≡ over (little_endian width n) out.old }
{
    let mut rest = n;
    for b in &mut out[..width] {
        *b = (rest & 255) as u8;
        rest >>= 8;
    }
}

// Three 16-bit numbers.
pub fn write_numbers(a: u64, b: u64, c: u64, out: &mut [u8])
    requires { 6 ≤ length out.old }
    ensures { out.new ≡ over (numbers a b c) out.old }
{
    write_number(a, NUMBER, out);
    write_number(b, NUMBER, &mut out[NUMBER..]);
    write_number(c, NUMBER, &mut out[TWO_NUMBERS..]);
}

#[tactic(auto, unfolding(crate::specs::Writing::over))]
pub fn write_zeros(count: usize, out: &mut [u8])
    requires { count ≤ length out.old }
    ensures { out.new ≡ over (replicate count 0) out.old }
{
    out[..count].fill(0);
}

#[tactic(auto, unfolding(crate::specs::Writing::over))]
pub fn write_pair(a: u8, b: u8, out: &mut [u8])
    requires { 2 ≤ length out.old }
    ensures { out.new ≡ over (a ∷ b ∷ []) out.old }
{
    out[0] = a;
    out[1] = b;
}

// A table, its lowest word first.
fn write_table(t: Table, out: &mut [u8])
    requires { table_width principals ≤ length out.old }
    ensures { out.new ≡ over (little_endian (table_width principals) (whole t)) out.old }
{
    write_number(t.word0, WORD, out);
    write_number(t.word1, WORD, &mut out[WORD..]);
    write_number(t.word2, WORD, &mut out[TWO_WORDS..]);
    write_number(t.word3, WORD, &mut out[THREE_WORDS..]);
}

pub fn write_label(l: Label, out: &mut [u8])
    requires { label_width principals ≤ length out.old }
    ensures { out.new ≡ over (label_field principals l) out.old }
{
    write_table(l.secrecy, out);
    write_table(l.integrity, &mut out[TABLE..]);
}

// A value: its kind, a 0 byte, two words as wide as a table.
pub fn write_value(v: Triple, out: &mut [u8])
    requires { value_width principals ≤ length out.old }
    ensures { out.new ≡ over (triple_field v) out.old }
{
    write_pair(v.kind, 0, out);
    write_table(v.first, &mut out[FIRST..]);
    write_table(v.second, &mut out[SECOND..]);
}

// A value of two numbers.
fn numbered(kind: u8, first: u64, second: u64) -> Triple
    ensures { triple_field result ≡ value_field principals kind first second }
{
    Triple {
        kind,
        first: labels::low_table(first),
        second: labels::low_table(second),
    }
}

// The value that a datum is shown as.
impl From<Datum> for Triple {
    ghost from_gives = { λ d t. triple_field t ≡ datum_field principals d };

    #[tactic(auto, unfolding(crate::specs::Fields::datum_field))]
    fn from(d: Datum) -> Triple {
        match d {
            Datum::Number(n) => numbered(1, u64::from(n), 0),
            Datum::Label(l) => Triple {
                kind: 2,
                first: l.secrecy,
                second: l.integrity,
            },
            Datum::Handle(Kind::Sealed, p) => numbered(3, p as u64, 0),
            Datum::Handle(Kind::Reference, p) => numbered(4, p as u64, 0),
        }
    }
}

// The value that a record's contents are shown as.
impl From<Contents> for Triple {
    ghost from_gives = { λ c t. triple_field t ≡ contents_field principals c };

    #[tactic(auto, unfolding(crate::specs::Fields::contents_field))]
    fn from(contents: Contents) -> Triple {
        match contents {
            Contents::Value(d) => Triple::from(d),
            Contents::Fault(code, number) => numbered(5, u64::from(code), u64::from(number)),
        }
    }
}

// ---- the ending

// The number that stands for it in a view.
#[tactic(auto, unfolding(crate::specs::Fields::ending_number))]
pub fn ending_number(ending: Ending) -> u64
    ensures { result ≡ ending_number ending }
{
    match ending {
        Ending::Result(_) => 1,
        Ending::Fault(_, _) => 2,
        Ending::Spent => 3,
    }
}

// The value that a run's result is shown as: the fault, or none if spent.
impl From<Ending> for Triple {
    ghost from_gives = { λ e t. triple_field t ≡ result_field principals e };

    #[tactic(auto, unfolding(crate::specs::Fields::result_field))]
    fn from(ending: Ending) -> Triple {
        match ending {
            Ending::Result(d) => Triple::from(d),
            Ending::Fault(code, number) => numbered(5, u64::from(code), u64::from(number)),
            Ending::Spent => numbered(0, 0, 0),
        }
    }
}

// ---- records

// The byte that a view has for a kind. A function: a `From` would have to stand in `model`, which knows of no view.
#[tactic(auto, unfolding(crate::specs::Fields::kind_byte))]
fn kind_byte(kind: Kind) -> u8
    ensures { result ≡ kind_byte kind }
{
    match kind {
        Kind::Sealed => 0,
        Kind::Reference => 1,
    }
}

// Writes the record at place `p`.
pub fn write_record(p: u8, r: Record, out: &mut [u8])
    requires { record_width principals ≤ length out.old }
    ensures { out.new ≡ over (record_field principals p r) out.old }
{
    write_pair(p, kind_byte(r.kind), out);
    write_label(r.label, &mut out[RECORD_LABEL..]);
    write_value(Triple::from(r.contents), &mut out[RECORD_VALUE..]);
}
