// Prints the quote of each file of a batch.
#![tactic(auto)]

use std::io;

fn main(rt: HostRuntime) -> io::Result<()> {
    batches::print_each(&rt, |file| quote_printing::print_quote(&rt, file))
}
