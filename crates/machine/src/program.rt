// What a run executes.
#![tactic(auto)]

ghost use Rattle.std.specs.Prelude.{◌^◌, ◌<◌, length};

use labels::Label;
use model::FILE_LABELS;

// A loaded file's code, its labels and its input records, which have their places in the store already.
#[derive(Clone, Copy)]
pub struct Program<'a> {
    pub code: &'a [u8],
    pub labels: &'a [Label; FILE_LABELS],
    pub records: &'a [u8],
    pub ghost short: { length code.now < 2 ^ 16 },
}
