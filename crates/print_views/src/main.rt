// Reads a file from standard input and prints one line per label, that label reading.
#![tactic(auto)]

use std::process::ExitCode;

// A file has at most 65,535 bytes, so a buffer of one more is enough to see that an input is too long.
fn main(rt: HostRuntime) -> ExitCode {
    streams::print_input(
        &rt,
        &mut [0u8; 65536],
        |file| printing::print_file(&rt, file),
    )
}
