// Prints the views of each day of a batch, and behind each day's a line with a full stop.
#![tactic(auto)]

use std::io;

fn main(rt: HostRuntime) -> io::Result<()> {
    batches::print_each(&rt, |day| {
        day_printing::print_day(&rt, day)?;
        rt.write_all(b".\n")
    })
}
