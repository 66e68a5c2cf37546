// A day that loads: its jobs run one behind the other on one store, and what a label is shown of each.
#![tactic(auto)]

ghost use Rattle.std.specs.Prelude.{◌≡◌, ◌≤◌, ◌<◌, ◌^◌, leb, length};
ghost use Rattle.model.specs.Inputs.{input_slots};
ghost use Rattle.model.specs.Running.{start_store};
ghost use Rattle.view_fields.specs.Writing.{over};
ghost use Rattle.view.specs.Layout.{records_at, longest_view};
ghost use Rattle.view.specs.Writing.{run_view};
ghost use Rattle.reading.specs.Answers.{reads};
ghost use Rattle.reading.specs.Placing.{no_records};
ghost use Rattle.day_file.specs.Sections.{day_inputs, jobs_of_day};
ghost use Rattle.day_jobs.specs.Jobs.{left_by};
ghost use Rattle.day.specs.Views.{skipped_view, day_reading};
ghost use Rattle.day.specs.Parts.{shown_at, WrittenIfRoom, view_of_job, views_for, most_bytes};

use day_file::Day;
use day_jobs::DayJob;
use file_sections::Refusal;
use labels::Label;
use store::Store;
use view::{FINAL, RECORDS, RESULT, Run, SHOWN};
use view_fields::RECORD;

// ---- the views

// The ending that the view of a skipped job tells.
const SKIPPED: u64 = 4;

pub fn write_skipped(out: &mut [u8])
    requires { records_at ≤ length out.old }
    ensures { out.new ≡ over skipped_view out.old }
{
    let n = RECORDS as u64;
    view_fields::write_numbers(SKIPPED, 0, 0, out);
    view_fields::write_numbers(0, n, n, &mut out[SHOWN..]);
    view_fields::write_zeros(FINAL, &mut out[RESULT..]);
}

// Writes the view of a skipped job from `at` on, if it fits there, and gives its length. `at` and `out` go side by side: a struct
// of both would be lent again at each call.
fn show_skipped(at: usize, out: &mut [u8]) -> usize
    requires { at < 2 ^ 32 }
    ensures long { result ≡ records_at }
    ensures written { out.new ≡ shown_at at skipped_view out.old }
{
    if at + RECORDS <= out.len() {
        write_skipped(&mut out[at..]);
    }
    RECORDS
}

// The same of a job that was run.
fn show_run(reader: Label, run: Run, at: usize, out: &mut [u8]) -> usize
    requires { at < 2 ^ 32 }
    ensures long { result ≡ length (run_view reader run.entry) }
    ensures written { out.new ≡ shown_at at (run_view reader run.entry) out.old }
{
    if out.len() < at {
        return view::view_length(reader, run.store);
    }
    view::show_view(reader, run, &mut out[at..])
}

// Runs a job that is admitted, shows it and ends it, and gives the length of its view.
fn serve_job(job: DayJob, reader: Label, store: &mut Store, at: usize, out: &mut [u8]) -> usize
    requires { at < 2 ^ 32 }
    ensures most { result ≤ longest_view }
    ensures long { result ≡ length (view_of_job reader job.entry store.old) }
    ensures ended { store.new ≡ left_by job.entry store.old }
    ensures written { out.new ≡ shown_at at (view_of_job reader job.entry store.old) out.old }
{
    let finish = day_jobs::run_job(job, store);
    let run = Run {
        steps: job.numbers.steps,
        finish,
        store,
    };
    let n = show_run(reader, run, at, out);
    day_jobs::end_job(store, job.day.header.records.count);
    n
}

// Puts the input records of a day into a store that has none.
pub fn place_inputs(day: Day, store: &mut Store)
    requires { store.old ≡ no_records }
    ensures { store.new ≡ start_store (input_slots (day_inputs day.entry.file.now)) }
{
    reading::place_inputs(day_jobs::records_of(day), day.labels, store);
}

// Runs the jobs one behind the other, each on the store that the one before left, and gives the length of their views. The
// views are written if there is room for them all.
fn write_views(day: Day, reader: Label, out: &mut [u8]) -> usize
    ensures long { result ≡ length (views_for reader day.entry.file.now) }
    ensures written { WrittenIfRoom (views_for reader day.entry.file.now) out.old out.new }
{
    let mut store = store::no_records();
    place_inputs(day, &mut store);
    let mut callers = admission::full_allowances(day.header.steps);
    let mut at = 0;
    for k in 0..day.header.jobs.count {
        let job = day_jobs::job_of(day, k);
        if admission::admit_caller(&mut callers, job.numbers.caller, job.numbers.steps) {
            at += serve_job(job, reader, &mut store, at, out);
        } else {
            at += show_skipped(at, out);
        }
    }
    at
}

// ---- a read

// The most bytes that the views can have.
fn most_bytes(day: Day) -> usize
    ensures { result ≡ most_bytes (jobs_of_day day.entry.file.now) }
{
    let mut n = 0;
    for j in 0..day.header.jobs.count {
        n += RECORDS + RECORD * day_jobs::job_of(day, j).numbers.places;
    }
    n
}

// The length of the views: the day is run, and nothing is kept of it.
fn views_length(day: Day, reader: Label) -> usize
    ensures { result ≡ length (views_for reader day.entry.file.now) }
{
    write_views(day, reader, &mut [])
}

// Whether a buffer of `room` bytes holds the views. One that holds the most that they can have does; for any other the day
// is run.
fn views_fit(day: Day, reader: Label, room: usize) -> bool
    ensures { result ≡ leb (length (views_for reader day.entry.file.now)) room }
{
    most_bytes(day) <= room || views_length(day, reader) <= room
}

// Checks 8 and 9, of a day that loads: 9 before the first byte is written.
pub fn read_loaded(day: Day, reader: usize, buffer: &mut [u8]) -> Result<usize, Refusal>
    ensures { reads result buffer.new ≡ day_reading day.entry.file.now reader buffer.old }
{
    if day.header.labels.count <= reader {
        return Err(Refusal::Reader);
    }
    let label = operands::label_at(day.labels, reader);
    if !views_fit(day, label, buffer.len()) {
        return Err(Refusal::Room);
    }
    Ok(write_views(day, label, buffer))
}
