// Reading a buffer full, and telling of a stream that failed.
#![tactic(auto)]

ghost use Rattle.std.specs.Prelude.{◌≡◌, ◌⊎◌, ℕ, ◌^◌, ◌<◌, ◌≤◌, IfOk, List, length, take};
ghost use Rattle.std.specs.Borrow.{Bor, MutBor};
ghost use Rattle.std.specs.Process.{exit_status};
ghost use Rattle.std.specs.Io.{ReadsAtMost};
ghost use Rattle.std.specs.Io.KnownBytes.{Consumes, IsAtEnd};
ghost use Rattle.streams.specs.Statuses.{status_of};

use std::io;
use std::io::Read;
use std::process::ExitCode;

// Reads until `buf` is full or the input ends, and gives how many bytes it put at the start of `buf`: those that the reader
// had next, and all of them where they are fewer than `buf` holds.
pub fn read_full<R: Read>(reader: &mut R, buf: &mut [u8]) -> io::Result<usize>
    ensures bound { ReadsAtMost result buf.new }
    ensures bytes { IfOk result (λ n. Consumes (R.remaining reader.old) (R.remaining reader.new) (take n buf.new)) }
    ensures end { IfOk result (λ n. n < length buf.old → IsAtEnd (R.remaining reader.new)) }
{
    let mut done = 0;
    // By `while`: how far a read gets is the reader's.
    while done < buf.len() {
        let n = reader.read(&mut buf[done..])?;
        if n == 0 {
            return Ok(done);
        }
        done += n;
    }
    Ok(done)
}

// Says on standard error which stream failed and why, and gives the status to end with.
pub fn fail(rt: &impl Eprint, stream: &str, error: io::Error, status: u8) -> ExitCode
    ensures { exit_status result ≡ status }
{
    let _ = eprintln!(rt; "{stream}: {error}");
    ExitCode::from(status)
}

// Reads standard input, as much of it as `buf` holds, and prints what `print` does with it. Ends with 2 where standard input
// can't be read, and with 3 where standard output can't be written.
pub fn print_input<F: Fn(&[u8]) -> io::Result<()>>(
    rt: &(impl Input + Eprint),
    buf: &mut [u8],
    print: F,
) -> ExitCode
    requires { F.IsAlwaysCallable print }
    ensures { (exit_status result ≡ 2) ⊎ ((p : Bor (List ℕ)) × (r : _) × F.post print p r × (exit_status result ≡ status_of r)) }
{
    let n = match read_full(&mut rt.reader(), buf) {
        Ok(n) => n,
        Err(e) => return fail(rt, "standard input", e, 2),
    };
    match print(&buf[..n]) {
        Ok(()) => ExitCode::SUCCESS,
        Err(e) => fail(rt, "standard output", e, 3),
    }
}

// Prints what `write` puts at the start of a buffer of ROOM bytes: as many of them as it counts.
pub fn print_written<const ROOM: usize, F: FnOnce(&mut [u8]) -> usize>(
    rt: &impl Print,
    write: F,
) -> io::Result<()>
    requires small { ROOM < 2 ^ 63 }
    requires takes { (p : MutBor (List ℕ)) → length p.now ≡ ROOM → F.pre write p }
    requires counts { (p q : MutBor (List ℕ)) (n : ℕ) → length p.now ≡ ROOM → F.post write p n q → n ≤ ROOM }
{
    let mut out = [0u8; ROOM];
    let n = write(&mut out);
    rt.write_all(&out[..n])
}
