// The printed line: a view's fields as hex bytes parted by spaces, or that a file is refused and why, written into a
// buffer that the caller lends.
#![tactic(auto)]

ghost use Rattle.std.specs.Prelude.{◌≡◌, ◌∷◌, ◌+◌, ◌*◌, ◌≤◌, ◌<◌, length, take, drop};
ghost use Rattle.model.specs.Decoding.{u16};
ghost use Rattle.file_sections.specs.Refusals.{refusal_number};
ghost use Rattle.view_fields.specs.Writing.{over};
ghost use Rattle.lines.specs.Lines.{hex_digit, hex, spaced, widths, line, refused_line};

use file_sections::Refusal;
use view::{RECORDS, SHOWN};
use view_fields::{NUMBER, RECORD, TABLE};

// The widths of a line's fields: of those before the records, and of a record's.
const FRONT: [usize; 13] = [
    2, 2, 2, 2, 2, 2, 2, TABLE, TABLE, TABLE, TABLE, TABLE, TABLE,
];

const FIELDS: [usize; 7] = [1, 1, TABLE, TABLE, 2, TABLE, TABLE];

// How many records a view shows: its fourth number. A byte that isn't there counts as 0.
fn records_in(view: &[u8]) -> usize
    ensures { (result < 65536) × (result ≡ u16 view.now 6) }
{
    usize::from(decode::u16_at(view, SHOWN))
}

// The first `width` bytes, or as many as there are, and those behind them.
fn parted(bytes: &[u8], width: usize) -> (&[u8], &[u8])
    ensures first { result.0.now ≡ take width bytes.now }
    ensures behind { result.1.now ≡ drop width bytes.now }
{
    bytes.split_at(width.min(bytes.len()))
}

// By two cases, as the definition has it; `char::from_digit` gives a character, which would be cut to a byte.
fn hex_digit(d: u8) -> u8
    requires { d < 16 }
    ensures { result ≡ hex_digit d }
{
    if d < 10 {
        return b'0' + d;
    }
    b'a' + (d - 10)
}

// Writes two digits for each byte.
fn write_hex(bytes: &[u8], out: &mut [u8])
    requires { 2 * length bytes.now ≤ length out.old }
    ensures { out.new ≡ over (hex bytes.now) out.old }
{
    for (i, &b) in bytes.iter().enumerate() {
        view_fields::write_pair(hex_digit(b >> 4), hex_digit(b & 15), &mut out[2 * i..]);
    }
}

// A space and a field.
fn write_field(field: &[u8], out: &mut [u8])
    requires { 1 + 2 * length field.now ≤ length out.old }
    ensures { out.new ≡ over (0x20 ∷ hex field.now) out.old }
{
    out[0] = b' ';
    write_hex(field, &mut out[1..]);
}

// Writes the fields of these widths, and gives how many bytes that is.
fn write_fields(widths: &[usize], bytes: &[u8], out: &mut [u8]) -> usize
    requires { length (spaced widths.now bytes.now) ≤ length out.old }
    ensures count { result ≡ length (spaced widths.now bytes.now) }
    ensures written { out.new ≡ over (spaced widths.now bytes.now) out.old }
{
    let mut rest = bytes;
    let mut at = 0;
    for &width in widths {
        let (field, behind) = parted(rest, width);
        write_field(field, &mut out[at..]);
        at += 1 + 2 * field.len();
        rest = behind;
    }
    at
}

// Writes the fields of `count` records, and gives how many bytes that is.
fn write_record_fields(count: usize, bytes: &[u8], out: &mut [u8]) -> usize
    requires { length (spaced (widths count) bytes.now) ≤ length out.old }
    ensures count { result ≡ length (spaced (widths count) bytes.now) }
    ensures written { out.new ≡ over (spaced (widths count) bytes.now) out.old }
{
    let mut rest = bytes;
    let mut at = 0;
    for _ in 0..count {
        at += write_fields(&FIELDS, rest, &mut out[at..]);
        rest = parted(rest, RECORD).1;
    }
    at
}

// Writes the line of a view, and gives how many bytes that is.
pub fn write_line(view: &[u8], out: &mut [u8]) -> usize
    requires { length (line view.now) ≤ length out.old }
    ensures count { result ≡ length (line view.now) }
    ensures written { out.new ≡ over (line view.now) out.old }
{
    let (first, behind) = parted(view, NUMBER);
    write_hex(first, out);
    let middle = 2 * first.len();
    let last = middle + write_fields(&FRONT[1..], behind, &mut out[middle..]);
    let records = parted(view, RECORDS).1;
    let end = last + write_record_fields(records_in(view), records, &mut out[last..]);
    out[end] = b'\n';
    end + 1
}

// How many bytes the line of a view has: two digits for each byte that is there, and a byte behind each field.
pub fn line_length(view: &[u8]) -> usize
    ensures { result ≡ length (line view.now) }
{
    let n = records_in(view);
    13 + 7 * n + 2 * view.len().min(RECORDS + RECORD * n)
}

#[tactic(auto, unfolding(view_fields::specs::Writing::over))]
pub fn write_bytes(bytes: &[u8], out: &mut [u8])
    requires { length bytes.now ≤ length out.old }
    ensures { out.new ≡ over bytes.now out.old }
{
    out[..bytes.len()].copy_from_slice(bytes);
}

// Writes the line of a file that is refused with the number `n`, and gives how many bytes that is. It is promised of any number
// below 20, and so takes no refusal; no check has a number of 20 or more, so the first of two digits is 1.
pub fn write_refused(n: u8, out: &mut [u8]) -> usize
    requires { (n < 20) × (11 ≤ length out.old) }
    ensures count { result ≡ length (refused_line n) }
    ensures written { out.new ≡ over (refused_line n) out.old }
{
    write_bytes(b"refused ", out);
    if n < 10 {
        view_fields::write_pair(b'0' + n, b'\n', &mut out[8..]);
        return 10;
    }
    out[8] = b'1';
    view_fields::write_pair(b'0' + (n - 10), b'\n', &mut out[9..]);
    11
}

// The same by the refusal.
pub fn write_refusal(refusal: Refusal, out: &mut [u8]) -> usize
    requires { 11 ≤ length out.old }
    ensures count { result ≡ length (refused_line (refusal_number refusal)) }
    ensures written { out.new ≡ over (refused_line (refusal_number refusal)) out.old }
{
    write_refused(u64::from(refusal) as u8, out)
}
