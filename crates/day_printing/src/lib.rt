// Printing what a day comes to: for each of its labels a line for each job, that label reading, or its refusal.
#![tactic(auto)]

ghost use Rattle.std.specs.Prelude.{◌≤◌, length};
ghost use Rattle.day_turns.specs.Keeping.{Kept};
ghost use Rattle.day_lines.specs.Room.{most_day_lines};

use day_file::Day;
use day_lines::ROOM;
use day_turns::{JOBS, KeptJobs};
use file_sections::Refusal;
use std::io;

#[tactic(auto, using(view_fields::proofs::Buffers::written_within))]
fn print_refused(rt: &impl Print, refusal: Refusal) -> io::Result<()> {
    streams::print_written::<11, _>(rt, |out| lines::write_refusal(refusal, out))
}

// Prints the lines of a day that was run, one label behind the other, so that the buffer need only hold a label's. Not by
// `print_written`, since a closure over a `Day` would need clauses of its own.
#[tactic(auto, using(view_fields::proofs::Buffers::written_within))]
fn print_labels(rt: &impl Print, day: Day, kept: &KeptJobs, out: &mut [u8]) -> io::Result<()>
    requires is_kept { Kept day.file.now kept.now }
    requires room { most_day_lines ≤ length out.old }
{
    for reader in 0..day.header.labels.count {
        let n = day_lines::write_day_lines(day, kept, reader, out);
        rt.write_all(&out[..n])?;
    }
    Ok(())
}

// Prints the lines of a day.
pub fn print_day(rt: &impl Print, file: &[u8]) -> io::Result<()> {
    let mut labels = file_sections::no_labels();
    match day_file::load_day(file, &mut labels) {
        Ok(header) => {
            let day = Day {
                file,
                header,
                labels: &labels,
            };
            let mut kept = [None; JOBS];
            day_turns::run_day(day, &mut kept);
            print_labels(rt, day, &kept, &mut [0u8; ROOM])
        }
        Err(refusal) => print_refused(rt, refusal),
    }
}
