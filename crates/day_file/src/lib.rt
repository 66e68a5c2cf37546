// A day file: its header, its jobs, and the checks that stop it.
#![tactic(auto)]

mod day;

ghost use Rattle.std.specs.Prelude.{true, ◌≡◌, ◌<◌, ◌^◌, length};
ghost use Rattle.model.specs.FileLabels.{label_in};
ghost use Rattle.day_file.specs.Sections.{day_header, job_from, jobs_from};
ghost use Rattle.day_file.specs.Checks.{offsets_ok, job_ok, jobs_ok, passes2, passes3, passes10, passes7};
ghost use Rattle.day_file.specs.Loading.{loaded_day, labels_of_day};
ghost use Rattle.day_file.specs.Parts.{Shorts};

pub use day::Day;
use file_sections::{Refusal, Section};
use labels::Label;
use model::FILE_LABELS;

// The numbers of a day's header. `Shorts` is no ghost field of it, as in a script file's.
#[derive(Clone, Copy)]
pub struct Header {
    pub labels: Section,
    pub records: Section,
    pub jobs: Section,
    pub code: Section,
    pub steps: usize,
}

// A job: who asks for it, the indices of its starting label and clearance, a byte that is 0, its steps and places, and
// its span of the code section.
#[derive(Clone, Copy)]
pub struct Job {
    pub caller: usize,
    pub label: usize,
    pub clearance: usize,
    pub zero: usize,
    pub steps: usize,
    pub places: usize,
    pub start: usize,
    pub length: usize,
}

// ---- the header

#[tactic(auto, unfolding(crate::specs::Sections::day_header))]
fn read_header(file: &[u8]) -> Header
    ensures { (result ≡ day_header file.now) × Shorts result }
{
    Header {
        labels: file_sections::section_at(file, 0),
        records: file_sections::section_at(file, 4),
        jobs: file_sections::section_at(file, 8),
        code: file_sections::section_at(file, 12),
        steps: decode::u32_at(file, 16) as usize,
    }
}

// Check 3: the sections follow each other from byte 20 to the file's end. The numbers are short, so no sum wraps.
#[tactic(auto, unfolding(crate::specs::Checks::offsets_ok, file_sections::specs::Checks::every))]
fn offsets_ok(h: Header, n: usize) -> bool
    requires { Shorts h }
    ensures { result ≡ offsets_ok h n }
{
    h.labels.offset == 20
        && 20 <= h.records.offset
        && h.jobs.offset == h.records.offset + 6 * h.records.count
        && h.code.offset == h.jobs.offset + 12 * h.jobs.count
        && n == h.code.offset + h.code.count
}

// ---- jobs

// The job whose bytes start at `at`. Its span's numbers are short, so that they can be added.
#[tactic(auto, unfolding(crate::specs::Sections::job_from))]
pub fn job_at(file: &[u8], at: usize) -> Job
    requires { at < 2 ^ 31 }
    ensures { (result ≡ job_from file.now at) × (result.start < 2 ^ 16) × (result.length < 2 ^ 16) }
{
    Job {
        caller: decode::index_at(file, at),
        label: decode::index_at(file, at + 1),
        clearance: decode::index_at(file, at + 2),
        zero: decode::index_at(file, at + 3),
        steps: file_sections::number_at(file, at + 4),
        places: file_sections::number_at(file, at + 6),
        start: file_sections::number_at(file, at + 8),
        length: file_sections::number_at(file, at + 10),
    }
}

// Check 10, of one job: its numbers within their limits, its span inside the code, and its label flows to its clearance.
#[tactic(auto, unfolding(crate::specs::Checks::job_ok, file_sections::specs::Checks::every))]
fn job_ok(h: Header, labels: &[Label; FILE_LABELS], job: Job) -> bool
    requires { (job.start < 2 ^ 16) × (job.length < 2 ^ 16) }
    ensures { result ≡ job_ok h (label_in labels.now) job }
{
    job.caller <= 15
        && job.label < h.labels.count
        && job.clearance < h.labels.count
        && job.zero == 0
        && 1 <= job.steps
        && h.records.count <= job.places
        && job.places <= 256
        && 1 <= job.length
        && job.start + job.length <= h.code.count
        && labels::flows(
            operands::label_at(labels, job.label),
            operands::label_at(labels, job.clearance),
        )
}

// Check 10: 1 to 16 jobs, each as above.
fn jobs_ok(file: &[u8], h: Header, labels: &[Label; FILE_LABELS]) -> bool
    requires { Shorts h }
    ensures { result ≡ jobs_ok h (label_in labels.now) (jobs_from file.now h.jobs.count h.jobs.offset) }
{
    if h.jobs.count < 1 || 16 < h.jobs.count {
        return false;
    }
    for i in 0..h.jobs.count {
        if !job_ok(h, labels, job_at(file, h.jobs.offset + 12 * i)) {
            return false;
        }
    }
    true
}

// Check 7, of each job's span by itself. Checks 2, 3 and 10 have passed, so each span lies in the file.
fn spans_ok(file: &[u8], h: Header) -> bool
    requires short { Shorts h }
    requires is_header { h ≡ day_header file.now }
    requires passed { (passes2 file.now ≡ true) × (passes3 file.now ≡ true) × (passes10 file.now ≡ true) }
    ensures { result ≡ passes7 file.now }
{
    for i in 0..h.jobs.count {
        let job = job_at(file, h.jobs.offset + 12 * i);
        let start = h.code.offset + job.start;
        let span = &file[start..start + job.length];
        if !code_check::code_ok(span, h.labels.count, h.records.count) {
            return false;
        }
    }
    true
}

// ---- the file

// Loads a day of any length. The answer is the refusal of the first check that stops it, or its header; the jobs, the code
// and the input records stay in the file, where the header says. The labels of a day that loads are put into `labels`, and
// ⟨False, False⟩ behind them; a refusal leaves `labels` as it was. Not one function with script_file's `load`: the header, its
// offsets and the order of the checks differ, so both would pass it a list of closures, which is no plainer.
pub fn load_day(file: &[u8], labels: &mut [Label; FILE_LABELS]) -> Result<Header, Refusal>
    ensures { (result ≡ loaded_day file.now) × (labels.new ≡ labels_of_day file.now labels.old) }
{
    if !file_sections::size_ok(20, file.len()) {
        return Err(Refusal::Size);
    }
    let h = read_header(file);
    if !file_sections::counts_ok(h.labels, h.records, h.code) {
        return Err(Refusal::Counts);
    }
    if !offsets_ok(h, file.len()) {
        return Err(Refusal::Offsets);
    }
    let label_bytes = &file[20..h.records.offset];
    let Some(listed) = file_sections::read_labels(label_bytes, h.labels.count) else {
        return Err(Refusal::Labels);
    };
    if !jobs_ok(file, h, &listed) {
        return Err(Refusal::Jobs);
    }
    let records = &file[h.records.offset..h.jobs.offset];
    if !file_sections::records_ok(records, h.records.count, h.labels.count) {
        return Err(Refusal::Records);
    }
    if !spans_ok(file, h) {
        return Err(Refusal::Code);
    }
    *labels = listed;
    Ok(h)
}
