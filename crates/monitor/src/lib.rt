// The open calls: reading a file, or a day, for a label into a buffer, and the quote of a file. They ask nothing of their
// caller.
#![tactic(auto)]

ghost use Rattle.std.specs.Prelude.{◌≡◌};
ghost use Rattle.view.specs.Reading.{reading};
ghost use Rattle.day.specs.Views.{day_reading};
ghost use Rattle.reading.specs.Answers.{reads, code_of};
ghost use Rattle.quote.specs.Quoting.{quoting};
ghost use Rattle.monitor.specs.Calls.{quote_code};

use day_file::Day;
use file_sections::Refusal;
use quote::Figures;
use script_file::Script;

// Reads a file for the label with index `reader`: its view goes to the start of `buffer`, and its length is the answer.
pub fn read(file: &[u8], reader: usize, buffer: &mut [u8]) -> Result<usize, Refusal>
    ensures { reads result buffer.new ≡ reading file.now reader buffer.old }
{
    let mut labels = file_sections::no_labels();
    let header = script_file::load(file, &mut labels)?;
    let script = Script {
        file,
        header,
        labels: &labels,
    };
    reading::read_loaded(script, reader, buffer)
}

// The answer of a read as one number: below 206 it is the refusal's, else the length of what was written.
fn code_of(answer: Result<usize, Refusal>) -> usize
    ensures { result ≡ code_of answer }
{
    match answer {
        Ok(n) => n,
        Err(refusal) => u64::from(refusal) as usize,
    }
}

// The same as `read` for C and Rust, with one number for an answer.
#[unsafe(no_mangle)]
pub extern "C" fn nechwalu_read(file: &[u8], reader: usize, buffer: &mut [u8]) -> usize
    ensures answer { result ≡ code_of (reading file.now reader buffer.old).answer }
    ensures left { buffer.new ≡ (reading file.now reader buffer.old).buffer }
{
    code_of(read(file, reader, buffer))
}

// Reads a day for the label with index `reader`: the views of its jobs go to the start of `buffer`, end to end, and their
// length is the answer.
pub fn read_day(file: &[u8], reader: usize, buffer: &mut [u8]) -> Result<usize, Refusal>
    ensures { reads result buffer.new ≡ day_reading file.now reader buffer.old }
{
    let mut labels = file_sections::no_labels();
    let header = day_file::load_day(file, &mut labels)?;
    let day = Day {
        file,
        header,
        labels: &labels,
    };
    day::read_loaded(day, reader, buffer)
}

// The same as `read_day` for C and Rust, with one number for an answer.
#[unsafe(no_mangle)]
pub extern "C" fn nechwalu_read_day(file: &[u8], reader: usize, buffer: &mut [u8]) -> usize
    ensures answer { result ≡ code_of (day_reading file.now reader buffer.old).answer }
    ensures left { buffer.new ≡ (day_reading file.now reader buffer.old).buffer }
{
    code_of(read_day(file, reader, buffer))
}

// The quote of a file: the largest steps and the largest places along any path through its code.
pub fn quote(file: &[u8]) -> Result<Figures, Refusal>
    ensures { result ≡ quoting file.now }
{
    quote::quote_file(file)
}

// The same for C and Rust, with one number for an answer: below 2 ^ 32 it is the refusal's; else the steps are its upper 32
// bits and the places its lower.
#[unsafe(no_mangle)]
pub extern "C" fn nechwalu_quote(file: &[u8]) -> u64
    ensures { result ≡ quote_code (quoting file.now) }
{
    match quote(file) {
        Ok(f) => 4294967296 * u64::from(f.steps) + u64::from(f.places),
        Err(refusal) => u64::from(refusal),
    }
}
