// The view: what a reading label, the observer, is shown of a run that has ended, written into a buffer that the caller
// lends.
#![tactic(auto)]

ghost use Rattle.std.specs.Prelude.{◌≡◌, ◌*◌, ◌≤◌, ◌<◌, length, MatchOption};
ghost use Rattle.labels.specs.Tables.{principals};
ghost use Rattle.model.specs.State;
ghost use Rattle.view_fields.specs.Fields.{record_width};
ghost use Rattle.view_fields.specs.Writing.{over};
ghost use Rattle.view.specs.Layout.{final_width, record_fields, records_shown, counts, final, view_length, longest_view};
ghost use Rattle.view.specs.Writing.{observes, closing, run_view, shown_in};

use labels::Label;
use model::{Finished, Slot};
use store::{PLACES, Store};
use view_fields::{LABEL, NUMBER, RECORD, Triple, VALUE};

// A run that has ended: the steps that it was given, which are no part of what it left, and its store.
#[derive(Clone, Copy)]
pub struct Run<'a> {
    pub steps: usize,
    pub finish: Finished,
    pub store: &'a Store,
}

// ---- the offsets of a view, in bytes

// The last three of its six numbers, records shown first; the result, label and clearance; the records.
pub const SHOWN: usize = 3 * NUMBER;

pub const RESULT: usize = 6 * NUMBER;

pub const RECORDS: usize = RESULT + FINAL;

// The longest view shows a record at each place.
pub const LONGEST: usize = RECORDS + RECORD * PLACES;

// Of what stands at RESULT: the label, the clearance, and the width of all three.
const FINAL_LABEL: usize = VALUE;

const FINAL_CLEARANCE: usize = VALUE + LABEL;

pub const FINAL: usize = VALUE + 2 * LABEL;

// ---- records

// A slot as the reader may observe it: empty unless its record's label flows to the reader.
#[tactic(auto, unfolding(model::specs::State::shown))]
fn shown(reader: Label, slot: Slot) -> Slot
    ensures { result ≡ State.shown (observes reader) slot }
{
    slot.filter(|r| labels::flows(r.label, reader))
}

// How many records the reader is shown.
fn records_shown(reader: Label, store: &Store) -> usize
    ensures { result ≡ records_shown (observes reader) store.now }
{
    store
        .iter()
        .filter(|slot| shown(reader, **slot).is_some())
        .count()
}

// Writes the records that the reader is shown, by rising place, and gives how many they are: their number tells where the next
// one goes.
fn write_records(reader: Label, store: &Store, out: &mut [u8]) -> usize
    requires { record_width principals * records_shown (observes reader) store.now ≤ length out.old }
    ensures few { result ≤ 256 }
    ensures shown_count { result ≡ records_shown (observes reader) store.now }
    ensures written { out.new ≡ over (record_fields principals (observes reader) 0 store.now) out.old }
{
    let mut n = 0;
    for (p, slot) in store.iter().enumerate() {
        if let Some(r) = shown(reader, *slot) {
            view_fields::write_record(p as u8, r, &mut out[RECORD * n..]);
            n += 1;
        }
    }
    n
}

// ---- the view

// How many bytes the view has. It is known before the first of them is written.
#[tactic(auto, unfolding(crate::specs::Layout::length_over), using(crate::proofs::LengthField::shown_most))]
pub fn view_length(reader: Label, store: &Store) -> usize
    ensures { result ≡ view_length (observes reader) store.now }
{
    RECORDS + RECORD * records_shown(reader, store)
}

// Ending, steps used and next place; zeros if the run's last label doesn't flow to the reader.
fn write_counts(reader: Label, run: Run, out: &mut [u8])
    requires { 6 ≤ length out.old }
    ensures { out.new
        ≡ over (counts (observes reader) run.entry.steps run.entry.finish.ending (closing run.entry.finish)) out.old }
{
    if labels::flows(run.finish.label, reader) {
        view_fields::write_numbers(
            view_fields::ending_number(run.finish.ending),
            run.steps.saturating_sub(run.finish.steps) as u64,
            run.finish.next as u64,
            out,
        );
    } else {
        view_fields::write_zeros(SHOWN, out);
    }
}

// Result, label and clearance; zeros likewise.
fn write_final(reader: Label, finish: Finished, out: &mut [u8])
    requires { final_width principals ≤ length out.old }
    ensures { out.new ≡ over (final principals (observes reader) finish.ending (closing finish)) out.old }
{
    if labels::flows(finish.label, reader) {
        view_fields::write_value(Triple::from(finish.ending), out);
        view_fields::write_label(finish.label, &mut out[FINAL_LABEL..]);
        view_fields::write_label(finish.clearance, &mut out[FINAL_CLEARANCE..]);
    } else {
        view_fields::write_zeros(FINAL, out);
    }
}

// Writes the view of a run, leaves the buffer behind it as it was, and gives its length. The records come first, since only
// then it is known how many there are: so each place is looked at once.
#[tactic(auto, unfolding(crate::specs::Layout::length_over))]
fn write_view(reader: Label, run: Run, out: &mut [u8]) -> usize
    requires { view_length (observes reader) run.store.now ≤ length out.old }
    ensures most { result ≤ longest_view }
    ensures length { result ≡ view_length (observes reader) run.entry.store.now }
    ensures written { out.new ≡ over (run_view reader run.entry) out.old }
{
    let n = write_records(reader, run.store, &mut out[RECORDS..]);
    let length = RECORDS + RECORD * n;
    write_counts(reader, run, out);
    view_fields::write_numbers(n as u64, RECORDS as u64, length as u64, &mut out[SHOWN..]);
    write_final(reader, run.finish, &mut out[RESULT..]);
    length
}

// The view's length, if more than `room` bytes. Where those hold the longest view, nothing needs counting.
#[tactic(auto, using(crate::proofs::LengthField::view_most))]
fn too_long(reader: Label, store: &Store, room: usize) -> Option<usize>
    ensures { MatchOption result (view_length (observes reader) store.now ≤ room)
        (λ n. (n ≡ view_length (observes reader) store.now) × (n ≤ longest_view) × (room < n)) }
{
    if LONGEST <= room {
        return None;
    }
    let n = view_length(reader, store);
    (room < n).then_some(n)
}

// Writes the view as `write_view` does if the buffer holds it; else the buffer stays as it was. Its length is told all the
// same, since a day's check 9 is on a sum of lengths.
#[tactic(auto, using(crate::proofs::Widths::length_view), unfolding(crate::specs::Writing::shown_in))]
pub fn show_view(reader: Label, run: Run, out: &mut [u8]) -> usize
    ensures most { result ≤ longest_view }
    ensures length { result ≡ view_length (observes reader) run.entry.store.now }
    ensures shown { out.new ≡ shown_in (run_view reader run.entry) out.old }
{
    if let Some(n) = too_long(reader, run.store, out.len()) {
        return n;
    }
    write_view(reader, run, out)
}
