// The records of a run, place by place.
#![tactic(auto)]

ghost use Rattle.std.specs.Prelude.{◌≡◌, replicate, set, Some, None};
ghost use Rattle.model.specs.State.{at};
ghost use Rattle.store.specs.Records.{record_label, record_value, rewritten};

use labels::Label;
use model::{Contents, Datum, Record, Slot};

pub const PLACES: usize = 256;

pub type Store = [Slot; PLACES];

// A store without records. A function, so that the array is zeroed in one go: `[None; PLACES]` at the place that lends it is zeroed
// twice.
pub fn no_records() -> Store
    ensures { result ≡ replicate 256 None }
{
    [None; PLACES]
}

// ---- reading

// The record at a place; none past the last place.
pub fn load(store: &Store, p: usize) -> Slot
    ensures { result ≡ at store.now p }
{
    store.get(p).copied().flatten()
}

// The label of the record at a place; ⟨False, False⟩ where there is none.
pub fn label_of(store: &Store, p: usize) -> Label
    ensures { result ≡ record_label (at store.now p) }
{
    let Some(r) = load(store, p) else {
        return labels::no_label();
    };
    r.label
}

// The value of the record at a place; the number 0 where there is none.
pub fn value_of(store: &Store, p: usize) -> Datum
    ensures { result ≡ record_value (at store.now p) }
{
    let Some(r) = load(store, p) else {
        return Datum::Number(0);
    };
    let Contents::Value(d) = r.contents else {
        return Datum::Number(0);
    };
    d
}

// ---- writing

// Gives the record at a place another value; nothing where there is none.
pub fn rewrite(store: &mut Store, p: usize, d: Datum)
    ensures { store.new ≡ set store.old p (rewritten d (at store.old p)) }
{
    if let Some(r) = load(store, p) {
        let contents = Contents::Value(d);
        save(store, p, Record { contents, ..r });
    }
}

// Puts a record at a place.
pub fn save(store: &mut Store, p: usize, r: Record)
    ensures { store.new ≡ set store.old p (Some r) }
{
    if p < PLACES {
        store[p] = Some(r);
    }
}

// Empties a place. One that is empty is not written: that takes as many bytes as a record, and a day of short jobs up to 3.5 times
// the time.
pub fn clear(store: &mut Store, p: usize)
    ensures { store.new ≡ set store.old p None }
{
    if p < PLACES && store[p].is_some() {
        store[p] = None;
    }
}
