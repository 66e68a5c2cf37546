// Printing what a file comes to: a line for each of its labels, that label reading, or its refusal.
#![tactic(auto)]

use file_lines::ROOM;
use std::io;

// Prints the lines of a file.
#[tactic(auto, using(view_fields::proofs::Buffers::written_within))]
pub fn print_file(rt: &impl Print, file: &[u8]) -> io::Result<()> {
    streams::print_written::<ROOM, _>(rt, |out| file_lines::write_printed(file, out))
}
