// The printed quote of a file, written into a buffer that the caller lends.
#![tactic(auto)]

ghost use Rattle.std.specs.Prelude.{◌≡◌, ◌≤◌, length};
ghost use Rattle.view_fields.specs.Writing.{over};
ghost use Rattle.lines.specs.Lines.{decimal};
ghost use Rattle.quote_lines.specs.Lines.{figures_line, quote_printed};

use quote::Figures;

// The longest line: two numbers of ten digits, and 15 bytes around them.
pub const ROOM: usize = 35;

// Writes a number in decimal, and gives how many digits it has: by the definition's own recursion, a tenth of it first.
fn write_decimal(n: u32, out: &mut [u8]) -> usize
    requires { length (decimal n) ≤ length out.old }
    ensures count { result ≡ length (decimal n) }
    ensures written { out.new ≡ over (decimal n) out.old }
{
    if n < 10 {
        out[0] = b'0' + n as u8;
        return 1;
    }
    let at = write_decimal(n / 10, out);
    out[at] = b'0' + (n % 10) as u8;
    at + 1
}

// Writes the line of two figures, and gives how many bytes that is.
fn write_figures(f: Figures, out: &mut [u8]) -> usize
    requires { 35 ≤ length out.old }
    ensures count { result ≡ length (figures_line f) }
    ensures written { out.new ≡ over (figures_line f) out.old }
{
    lines::write_bytes(b"steps ", out);
    let middle = 6 + write_decimal(f.steps, &mut out[6..]);
    lines::write_bytes(b" places ", &mut out[middle..]);
    let last = middle + 8;
    let end = last + write_decimal(f.places, &mut out[last..]);
    out[end] = b'\n';
    end + 1
}

// Writes what is printed of a file's quote, and gives how many bytes that is.
pub fn write_quote(file: &[u8], out: &mut [u8]) -> usize
    requires { 35 ≤ length out.old }
    ensures count { result ≡ length (quote_printed file.now) }
    ensures written { out.new ≡ over (quote_printed file.now) out.old }
{
    match quote::quote_file(file) {
        Ok(f) => write_figures(f, out),
        Err(refusal) => lines::write_refusal(refusal, out),
    }
}
