// What is kept of a job of a day that was run.
#![tactic(auto)]

ghost use Rattle.std.specs.Prelude.{◌≡◌, length};

use model::Finished;
use store::Store;

// The steps that the job declares, how its run ended, and the store that it left, with all its places.
#[derive(Clone, Copy)]
pub struct KeptJob {
    pub steps: usize,
    pub finish: Finished,
    pub store: Store,
    pub ghost places: { length store ≡ 256 },
}
