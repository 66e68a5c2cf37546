// A script file: its header, and the checks that stop it.
#![tactic(auto)]

mod script;

ghost use Rattle.std.specs.Prelude.{◌≡◌, length};
ghost use Rattle.script_file.specs.Sections.{header};
ghost use Rattle.script_file.specs.Checks.{counts_ok, offsets_ok};
ghost use Rattle.script_file.specs.Loading.{loaded, labels_after};
ghost use Rattle.script_file.specs.Parts.{Shorts};

use file_sections::{Refusal, Section};
use labels::Label;
use model::FILE_LABELS;
pub use script::Script;

// The eight numbers of the header. That its sections are `Shorts` is said where it is needed: as a ghost field it would be a
// field of the record in specs/ too, and the definition of a header would have to prove it.
#[derive(Clone, Copy)]
pub struct Header {
    pub labels: Section,
    pub records: Section,
    pub code: Section,
    pub steps: usize,
    pub places: usize,
}

// ---- the header

#[tactic(auto, unfolding(crate::specs::Sections::header))]
fn read_header(file: &[u8]) -> Header
    ensures { (result ≡ header file.now) × Shorts result }
{
    Header {
        labels: file_sections::section_at(file, 0),
        records: file_sections::section_at(file, 4),
        code: file_sections::section_at(file, 8),
        steps: file_sections::number_at(file, 12),
        places: file_sections::number_at(file, 14),
    }
}

// Check 2: each count within its limits.
#[tactic(auto, unfolding(crate::specs::Checks::counts_ok, file_sections::specs::Checks::every))]
fn counts_ok(h: Header) -> bool
    ensures { result ≡ counts_ok h }
{
    file_sections::counts_ok(h.labels, h.records, h.code)
        && 1 <= h.steps
        && h.records.count <= h.places
        && h.places <= 256
}

// Check 3: the sections follow each other from byte 16 to the file's end. The numbers are short, so no sum wraps.
#[tactic(auto, unfolding(crate::specs::Checks::offsets_ok, file_sections::specs::Checks::every))]
fn offsets_ok(h: Header, n: usize) -> bool
    requires { Shorts h }
    ensures { result ≡ offsets_ok h n }
{
    h.labels.offset == 16
        && 16 <= h.records.offset
        && h.code.offset == h.records.offset + 6 * h.records.count
        && n == h.code.offset + h.code.count
}

// ---- the file

// Loads a file of any length. The answer is the refusal of the first check that stops it, or its header; the code and the
// input records stay in the file, where the header says. The labels of a file that loads are put into `labels`, and
// ⟨False, False⟩ behind them; a refusal leaves `labels` as it was.
pub fn load(file: &[u8], labels: &mut [Label; FILE_LABELS]) -> Result<Header, Refusal>
    ensures { (result ≡ loaded file.now) × (labels.new ≡ labels_after file.now labels.old) }
{
    if !file_sections::size_ok(16, file.len()) {
        return Err(Refusal::Size);
    }
    let h = read_header(file);
    if !counts_ok(h) {
        return Err(Refusal::Counts);
    }
    if !offsets_ok(h, file.len()) {
        return Err(Refusal::Offsets);
    }
    let label_bytes = &file[16..h.records.offset];
    let Some(listed) = file_sections::read_labels(label_bytes, h.labels.count) else {
        return Err(Refusal::Labels);
    };
    if !labels::flows(listed[0], listed[1]) {
        return Err(Refusal::Start);
    }
    let records = &file[h.records.offset..h.code.offset];
    if !file_sections::records_ok(records, h.records.count, h.labels.count) {
        return Err(Refusal::Records);
    }
    let code = &file[h.code.offset..];
    if !code_check::code_ok(code, h.labels.count, h.records.count) {
        return Err(Refusal::Code);
    }
    *labels = listed;
    Ok(h)
}
