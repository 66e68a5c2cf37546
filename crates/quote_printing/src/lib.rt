// Printing the quote of a file: a line with the two figures, or its refusal.
#![tactic(auto)]

use quote_lines::ROOM;
use std::io;

// Prints the quote of a file.
#[tactic(auto, using(view_fields::proofs::Buffers::written_within))]
pub fn print_quote(rt: &impl Print, file: &[u8]) -> io::Result<()> {
    streams::print_written::<ROOM, _>(rt, |out| quote_lines::write_quote(file, out))
}
