// A day that loads, run once and kept: how each of its jobs ended and the store that it left, for any number of labels to be
// shown.
#![tactic(auto)]

mod kept;

ghost use Rattle.std.specs.Prelude.{◌≡◌};
ghost use Rattle.day_jobs.specs.Running.{ran};
ghost use Rattle.day_jobs.specs.Jobs.{run_of, left_by};
ghost use Rattle.day_turns.specs.Keeping.{turn_of, SameViews, Kept};

use day_file::Day;
use day_jobs::DayJob;
pub use kept::KeptJob;
use store::Store;

// How many jobs a day has at most.
pub const JOBS: usize = 16;

// What is kept of each job of a day; nothing of one that was skipped.
pub type KeptJobs = [Option<KeptJob>; JOBS];

// Runs a job that is admitted, keeps the store that it leaves, and ends it.
fn keep_job(job: DayJob, store: &mut Store, kept: &mut Option<KeptJob>)
    ensures turn { SameViews (turn_of kept.new) (ran job.entry.numbers.steps (run_of job.entry store.old)) }
    ensures ended { store.new ≡ left_by job.entry store.old }
{
    let finish = day_jobs::run_job(job, store);
    *kept = Some(KeptJob {
        steps: job.numbers.steps,
        finish,
        store: *store,
    });
    day_jobs::end_job(store, job.day.header.records.count);
}

// Runs the jobs one behind the other, each on the store that the one before left, and keeps what each comes to. The loop is
// that of `day::write_views` but for what is made of a job: taken as a closure, that would have to change the store, the
// buffer and the place in it, and be no plainer.
pub fn run_day(day: Day, kept: &mut KeptJobs)
    ensures { Kept day.entry.file.now kept.new }
{
    let mut store = store::no_records();
    day::place_inputs(day, &mut store);
    let mut callers = admission::full_allowances(day.header.steps);
    for k in 0..day.header.jobs.count {
        let job = day_jobs::job_of(day, k);
        if admission::admit_caller(&mut callers, job.numbers.caller, job.numbers.steps) {
            keep_job(job, &mut store, &mut kept[k]);
        } else {
            kept[k] = None;
        }
    }
}
