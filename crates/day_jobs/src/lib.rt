// A job of a day: its run, and its end.
#![tactic(auto)]

mod job;

ghost use Rattle.std.specs.Prelude.{◌≡◌, ◌+◌, ◌*◌, ◌≤◌, ◌<◌, length, set};
ghost use Rattle.model.specs.State.{at};
ghost use Rattle.machine.specs.Steps.{Finishes};
ghost use Rattle.file_sections.specs.Sections.{record_bytes_of};
ghost use Rattle.day_file.specs.Sections.{day_sections, job_from};
ghost use Rattle.day_jobs.specs.JobEnd.{kept_contents, end_slot, end_job};
ghost use Rattle.day_jobs.specs.Jobs.{run_of};

use day_file::Day;
pub use job::DayJob;
use machine::Program;
use model::{Contents, Datum, FaultCode, Finished, Record};
use store::{PLACES, Store};

// ---- the end of a job, of a day with `count` input records

#[tactic(auto, unfolding(crate::specs::JobEnd::kept_contents, crate::specs::JobEnd::kept_datum))]
fn kept_contents(count: usize, contents: Contents) -> Contents
    ensures { result ≡ kept_contents count contents }
{
    match contents {
        Contents::Value(Datum::Handle(_, p)) if count <= p => {
            Contents::Fault(FaultCode::NoRecord as u32, 0)
        }
        _ => contents,
    }
}

// Keeps an input record, and empties any other place.
fn end_place(store: &mut Store, count: usize, p: usize)
    ensures { store.new ≡ set store.old p (end_slot count p (at store.old p)) }
{
    if count <= p {
        store::clear(store, p);
    } else if let Some(r) = store::load(store, p) {
        let contents = kept_contents(count, r.contents);
        store::save(store, p, Record { contents, ..r });
    }
}

pub fn end_job(store: &mut Store, count: usize)
    ensures { store.new ≡ end_job count store.old }
{
    for p in 0..PLACES {
        end_place(store, count, p);
    }
}

// ---- a job

// Job k of a day, one of 16 at most.
pub fn job_of(day: Day, k: usize) -> DayJob
    requires { k < day.header.jobs.count }
    ensures few { k < 16 }
    ensures of_day { result.day ≡ day.entry }
    ensures is { result.numbers ≡ job_from day.entry.file.now (day.entry.header.jobs.offset + 12 * k) }
{
    let numbers = day_file::job_at(day.file, day.header.jobs.offset + 12 * k);
    DayJob { day, numbers }
}

// The bytes of a day's input records.
pub fn records_of(day: Day) -> &[u8]
    ensures are { result.now ≡ record_bytes_of (day_sections day.entry.file.now) day.entry.file.now }
    ensures long { length result.now ≡ 6 * day.entry.header.records.count }
    ensures short { length result.now ≤ 384 }
{
    &day.file[day.header.records.offset..day.header.jobs.offset]
}

// Runs a job of a day, on the store as the job before left it.
pub fn run_job(job: DayJob, store: &mut Store) -> Finished
    ensures { Finishes result store.new (run_of job.entry store.old) }
{
    let DayJob { day, numbers, .. } = job;
    let start = day.header.code.offset + numbers.start;
    let program = Program {
        code: &day.file[start..start + numbers.length],
        labels: day.labels,
        records: records_of(day),
    };
    let label = operands::label_at(day.labels, numbers.label);
    let clearance = operands::label_at(day.labels, numbers.clearance);
    machine::execute(
        program,
        label,
        clearance,
        numbers.steps,
        numbers.places,
        store,
    )
}
