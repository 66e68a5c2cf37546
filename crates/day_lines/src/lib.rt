// The printed lines of a day that was run, for one of its labels, written into a buffer that the caller lends.
#![tactic(auto)]

ghost use Rattle.std.specs.Prelude.{◌≡◌, ◌≤◌, length};
ghost use Rattle.view_fields.specs.Writing.{over};
ghost use Rattle.view.specs.Writing.{observes};
ghost use Rattle.lines.specs.Lines.{line};
ghost use Rattle.file_lines.specs.Room.{longest_line};
ghost use Rattle.day.specs.Views.{skipped_view};
ghost use Rattle.day_turns.specs.Keeping.{turn_of, Kept};
ghost use Rattle.day_lines.specs.Lines.{turn_line, day_lines};
ghost use Rattle.day_lines.specs.Room.{most_day_lines};

use day_file::Day;
use day_turns::{JOBS, KeptJob, KeptJobs};
use file_lines::LINE;
use labels::Label;
use view::{RECORDS, Run};

// The lines of all jobs of a day.
pub const ROOM: usize = JOBS * LINE;

// Writes the line of a skipped job, and gives how many bytes that is.
fn write_skipped_line(out: &mut [u8]) -> usize
    requires { length (line skipped_view) ≤ length out.old }
    ensures long { result ≡ length (line skipped_view) }
    ensures written { out.new ≡ over (line skipped_view) out.old }
{
    let mut view = [0u8; RECORDS];
    day::write_skipped(&mut view);
    lines::write_line(&view, out)
}

// Writes the line of a job of which this is kept, and gives how many bytes that is.
fn write_job_line(reader: Label, kept: &Option<KeptJob>, out: &mut [u8]) -> usize
    requires { longest_line ≤ length out.old }
    ensures most { result ≤ longest_line }
    ensures long { result ≡ length (turn_line (observes reader) (turn_of kept.now)) }
    ensures written { out.new ≡ over (turn_line (observes reader) (turn_of kept.now)) out.old }
{
    let Some(job) = kept else {
        return write_skipped_line(out);
    };
    let run = Run {
        steps: job.steps,
        finish: job.finish,
        store: &job.store,
    };
    file_lines::write_shown(reader, run, out)
}

// Writes the line of each job for label `reader`, and gives how many bytes the lines are.
pub fn write_day_lines(day: Day, kept: &KeptJobs, reader: usize, out: &mut [u8]) -> usize
    requires is_kept { Kept day.file.now kept.now }
    requires room { most_day_lines ≤ length out.old }
    ensures long { result ≡ length (day_lines day.entry.file.now reader) }
    ensures written { out.new ≡ over (day_lines day.entry.file.now reader) out.old }
{
    let label = operands::label_at(day.labels, reader);
    let jobs = &kept[..day.header.jobs.count];
    let mut at = 0;
    for job in jobs {
        at += write_job_line(label, job, &mut out[at..]);
    }
    at
}
