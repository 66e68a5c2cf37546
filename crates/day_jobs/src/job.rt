// A job of a day, as its run takes it.
#![tactic(auto)]

ghost use Rattle.day_jobs.specs.Parts.{Runnable};

use day_file::{Day, Job};

// A job of a day that loads, which check 10 has found fit to run: the day, and the job's numbers.
#[derive(Clone, Copy)]
pub struct DayJob<'a> {
    pub day: Day<'a>,
    pub numbers: Job,
    pub ghost runs: { Runnable day.header numbers day.file.now },
}
