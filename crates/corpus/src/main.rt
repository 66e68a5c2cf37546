// Prints the views of each plain file of a batch, and behind each file's a line with a full stop.
#![tactic(auto)]

use std::io;

fn main(rt: HostRuntime) -> io::Result<()> {
    batches::print_each(&rt, |file| {
        printing::print_file(&rt, file)?;
        rt.write_all(b".\n")
    })
}
