// Printing the lines of each file of a batch. A batch has the files one behind the other, each with its length before it as
// a 32-bit number. Its files are plain ones or days; a batch does not tell.
#![tactic(auto)]

use std::io;
use std::io::Read;

// The longest file that a batch may have. The longest that loads has 65,535 bytes.
const ROOM: usize = 70000;

// No batch has so many files, and a loop has to end.
const MOST: usize = 1000000;

// What is printed of each file: its views and a line with a full stop, the same of a day, or its quote.
#[derive(Clone, Copy)]
pub enum Kind {
    Views,
    DayViews,
    Quotes,
}

fn print_stop(rt: &impl Print) -> io::Result<()> {
    rt.write_all(b".\n")
}

fn print_one(rt: &impl Print, file: &[u8], kind: Kind) -> io::Result<()> {
    match kind {
        Kind::Views => {
            printing::print_file(rt, file)?;
            print_stop(rt)
        }
        Kind::DayViews => {
            day_printing::print_day(rt, file)?;
            print_stop(rt)
        }
        Kind::Quotes => quote_printing::print_quote(rt, file),
    }
}

// Reads n bytes into `file`, and prints the lines of the file that they are. Tells whether there were so many.
fn print_sized<R: Read, F: Fn(&[u8]) -> io::Result<()>>(
    reader: &mut R,
    file: &mut [u8],
    n: usize,
    print: &F,
) -> io::Result<bool>
    requires { F.IsAlwaysCallable print.now }
{
    if file.len() < n {
        return Ok(false);
    }
    let part = &mut file[..n];
    if streams::read_full(reader, part)? != n {
        return Ok(false);
    }
    print(part)?;
    Ok(true)
}

// Prints the next file's lines, and tells whether there was one.
fn print_next<R: Read, F: Fn(&[u8]) -> io::Result<()>>(
    reader: &mut R,
    print: &F,
) -> io::Result<bool>
    requires { F.IsAlwaysCallable print.now }
{
    let mut size = [0u8; 4];
    if streams::read_full(reader, &mut size)? != 4 {
        return Ok(false);
    }
    let mut file = [0u8; ROOM];
    print_sized(reader, &mut file, decode::u32_at(&size, 0) as usize, print)
}

// Prints each file of the batch on standard input as `print` does.
pub fn print_each<F: Fn(&[u8]) -> io::Result<()>>(rt: &impl Input, print: F) -> io::Result<()>
    requires { F.IsAlwaysCallable print }
{
    let mut reader = rt.reader();
    for _ in 0..MOST {
        if !print_next(&mut reader, &print)? {
            break;
        }
    }
    Ok(())
}

// Prints each file of the batch on standard input as its kind says.
pub fn print_batch(rt: &(impl Input + Print), kind: Kind) -> io::Result<()> {
    print_each(rt, |file| print_one(rt, file, kind))
}
