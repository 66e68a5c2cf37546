// Reads a day from standard input and prints for each label a line for each job, that label reading.
#![tactic(auto)]

use std::process::ExitCode;

// A day has at most 65,535 bytes, so a buffer of one more is enough to see that an input is too long.
fn main(rt: HostRuntime) -> ExitCode {
    streams::print_input(
        &rt,
        &mut [0u8; 65536],
        |day| day_printing::print_day(&rt, day),
    )
}
