// What a plain file and a day have in common: why one is refused, and the sections of labels and of input records with
// their checks.
#![tactic(auto)]

ghost use Rattle.std.specs.Prelude.{◌≡◌, ◌≤◌, ◌<◌, ◌^◌, []};
ghost use Rattle.model.specs.Decoding.{u16};
ghost use Rattle.file_sections.specs.Sections.{section, read_labels};
ghost use Rattle.file_sections.specs.Checks.{size_within, counts_within, records_ok};
ghost use Rattle.file_sections.specs.Labels.{Short, label_array, labels_found};
ghost use Rattle.file_sections.specs.Refusals.{refusal_number};

use labels::Label;
use model::FILE_LABELS;

// ---- refusals

// Why a file or a day is refused, with the published numbers: the check that stopped it, or what it was asked for.
#[derive(Clone, Copy, PartialEq, Eq, Debug)]
pub enum Refusal {
    Size = 1,
    Counts = 2,
    Offsets = 3,
    Labels = 4,
    // The starting label does not flow to the starting clearance.
    Start = 5,
    Records = 6,
    Code = 7,
    // The file has no label with the reading label's index.
    Reader = 8,
    // The buffer is shorter than the view.
    Room = 9,
    Jobs = 10,
    // Of a quote: a TRY, or a target that is not ahead.
    Ahead = 11,
}

impl From<Refusal> for u64 {
    ghost from_gives = { λ r n. n ≡ refusal_number r };

    fn from(r: Refusal) -> u64 {
        r as u64
    }
}

// ---- the header

// A section of the file: how many entries (of the code: bytes) it has, and where it starts.
#[derive(Clone, Copy)]
pub struct Section {
    pub count: usize,
    pub offset: usize,
}

// As `decode::target_at`, with the bound that the sums of a header need.
pub fn number_at(file: &[u8], i: usize) -> usize
    requires { i < 2 ^ 32 }
    ensures { (result ≡ u16 file.now i) × (result < 2 ^ 16) }
{
    usize::from(decode::u16_at(file, i))
}

pub fn section_at(file: &[u8], i: usize) -> Section
    requires { i < 20 }
    ensures { (result ≡ section file.now i) × Short result }
{
    Section {
        count: number_at(file, i),
        offset: number_at(file, i + 2),
    }
}

// Check 1: at least so many bytes, and at most 65,535.
#[tactic(auto, unfolding(crate::specs::Checks::every))]
pub fn size_ok(least: usize, n: usize) -> bool
    ensures { result ≡ size_within least n }
{
    least <= n && n <= 65535
}

// Check 2: the counts that a plain file and a day both have, each within its limits.
#[tactic(auto, unfolding(crate::specs::Checks::every))]
pub fn counts_ok(labels: Section, records: Section, code: Section) -> bool
    ensures { result ≡ counts_within labels records code }
{
    2 <= labels.count
        && labels.count <= 32
        && records.count <= 64
        && 1 <= code.count
        && code.count <= 4096
}

// ---- labels

// Check 4: `count` entries, and no byte behind them. The labels of a file, ⟨False, False⟩ behind the last.
pub fn read_labels(bytes: &[u8], count: usize) -> Option<[Label; FILE_LABELS]>
    requires { count ≤ 32 }
    ensures { result ≡ labels_found (read_labels count bytes.now) }
{
    let mut labels = no_labels();
    let mut at = 0;
    for place in &mut labels[..count] {
        let (label, length) = label_entries::read_entry(&bytes[at..])?;
        *place = label;
        at += length;
    }
    (at == bytes.len()).then_some(labels)
}

// The labels of a file that has none.
pub fn no_labels() -> [Label; FILE_LABELS]
    ensures { result ≡ label_array [] }
{
    [labels::no_label(); FILE_LABELS]
}

// ---- input records

// Check 6: each record's kind is 0 or 1, and its label one of the file's.
pub fn records_ok(bytes: &[u8], count: usize, labels: usize) -> bool
    requires { count ≤ 64 }
    ensures { result ≡ records_ok labels bytes.now count 0 }
{
    for i in 0..count {
        let at = 6 * i;
        if 1 < decode::byte_at(bytes, at) {
            return false;
        }
        if labels <= decode::index_at(bytes, at + 1) {
            return false;
        }
    }
    true
}
