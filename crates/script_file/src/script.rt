// A script file that has been loaded, as its run and its readers take it.
#![tactic(auto)]

ghost use Rattle.script_file.specs.Parts.{Loads};

use crate::Header;
use labels::Label;
use model::FILE_LABELS;

// A file that loads, with its header and its labels.
#[derive(Clone, Copy)]
pub struct Script<'a> {
    pub file: &'a [u8],
    pub header: Header,
    pub labels: &'a [Label; FILE_LABELS],
    pub ghost loads: { Loads file.now header labels.now },
}
