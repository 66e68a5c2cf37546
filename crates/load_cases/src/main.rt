// Loads each file of standard input and prints the answer. A line has how many zero bytes the file ends with, its other
// bytes in hexadecimal, and what is tried, parted by single spaces. The answers to compare with come from a second
// reading of the file's rules, made apart from this code.
#![tactic(auto)]

ghost use Rattle.std.specs.Prelude.{◌≤◌, ◌<◌, length};

use std::io;

const ROOM: usize = 65600;

// Where the first space stands, or the end.
fn word_end(s: &[u8]) -> usize
    ensures { result ≤ length s.now }
{
    s.iter().position(|b| *b == b' ').unwrap_or(s.len())
}

// What a digit stands for, decimal or hexadecimal.
fn digit(b: u8) -> u8
    ensures { result < 16 }
{
    match b {
        b'0'..=b'9' => b - b'0',
        b'a'..=b'f' => b - b'a' + 10,
        _ => 0,
    }
}

fn decimal(s: &[u8]) -> usize
    ensures { result < 1000000 }
{
    let mut n = 0;
    for b in s {
        n = (10 * n + usize::from(digit(*b))) % 1000000;
    }
    n
}

// Puts the bytes that `hex` writes at the start of `file`, as far as there is room, and gives their number.
fn fill(hex: &[u8], file: &mut [u8]) -> usize
    ensures { result ≤ length file.old }
{
    for (place, pair) in file.iter_mut().zip(hex.chunks_exact(2)) {
        if let [high, low] = pair {
            *place = 16 * digit(*high) + digit(*low);
        }
    }
    file.len().min(hex.len() / 2)
}

// Loads the first `size` bytes.
fn try_file(rt: &impl Print, file: &[u8], size: usize) -> io::Result<()> {
    let Some(file) = file.get(..size) else {
        return Ok(());
    };
    match script_file::load(file, &mut file_sections::no_labels()) {
        Ok(_) => print!(rt; "loaded"),
        Err(refusal) => print!(rt; "refused {}", u64::from(refusal)),
    }
}

fn try_line(rt: &impl Print, line: &[u8]) -> io::Result<()> {
    let (zeros, rest) = line.split_at(word_end(line));
    let [_, rest @ ..] = rest else {
        return Ok(());
    };
    let (hex, tried) = rest.split_at(word_end(rest));
    let mut file = [0u8; ROOM];
    let n = fill(hex, &mut file);
    try_file(rt, &file, n + decimal(zeros))?;
    rt.write_all(b":")?;
    rt.write_all(tried)?;
    rt.write_all(b"\n")
}

fn main(rt: HostRuntime) -> io::Result<()> {
    let mut space = [0u8; 65536];
    let n = streams::read_full(&mut rt.reader(), &mut space)?;
    for line in space[..n].split(|b| *b == b'\n') {
        try_line(&rt, line)?;
    }
    Ok(())
}
