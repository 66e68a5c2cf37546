// A day file that has been loaded, as its runs and its readers take it.
#![tactic(auto)]

ghost use Rattle.day_file.specs.Parts.{DayLoads};

use crate::Header;
use labels::Label;
use model::FILE_LABELS;

// A day that loads, with its header and its labels.
#[derive(Clone, Copy)]
pub struct Day<'a> {
    pub file: &'a [u8],
    pub header: Header,
    pub labels: &'a [Label; FILE_LABELS],
    pub ghost loads: { DayLoads file.now header labels.now },
}
