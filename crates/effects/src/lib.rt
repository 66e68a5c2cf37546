// What an instruction comes to on labels and records: faults 22 to 28 and 31 to 33, or an effect that says where things
// lie.
#![tactic(auto)]

ghost use Rattle.std.specs.Prelude.{◌≡◌, set};
ghost use Rattle.model.specs.State.{at};
ghost use Rattle.model.specs.Effects.{holding};
ghost use Rattle.operands.specs.Tasks.{thrown, faulty};
ghost use Rattle.effects.specs.Decisions.{target_of, rises_of, too_high, raise_of, lower_of, make_of, room_of, enter_of};
ghost use Rattle.effects.specs.Decisions.{with_label_of, on_label, open_of, labelled_of, write_of, with_handle, on_handle};
ghost use Rattle.effects.specs.Decisions.{on_labels, label_from, paired_of, raised_by, sealed_of};

use labels::Label;
use model::{Account, Contents, Datum, Ending, FILE_LABELS, FaultCode, Kind, Record};
use operands::{Both, Decision, Effect, LabelTask, OnHandle, OnLabel, Origin};
use store::Store;

// ---- the checks. A fault's number is worked out once a check has failed, so that one that holds takes no longer.

// 23 and 24: the fault of the first failing of the two tests, if one fails. Inlined, since the
// interpreter's loop comes to three calls of it.
#[inline(always)]
#[tactic(auto, unfolding(crate::specs::Decisions::target_of))]
fn target(a: Account, l: Label) -> Option<Decision>
    ensures { result ≡ target_of a.label a.clearance l }
{
    if !labels::flows(a.label, l) {
        let number = labels::flow_test(a.label, l);
        return Some(operands::thrown(FaultCode::BelowLabel as u32, number));
    }
    if !labels::flows(l, a.clearance) {
        let number = labels::flow_test(l, a.clearance);
        return Some(operands::thrown(FaultCode::AboveClearance as u32, number));
    }
    None
}

// The raised label flows to the clearance.
fn rises(a: Account, l: Label) -> bool
    ensures { result ≡ rises_of a.label a.clearance l }
{
    labels::flows(labels::join(a.label, l), a.clearance)
}

// 24 of RAISE, OPEN and READ: the raised label doesn't flow to the clearance.
fn too_high(a: Account, l: Label) -> Decision
    ensures { result ≡ too_high a.label a.clearance l }
{
    let number = labels::flow_test(labels::join(a.label, l), a.clearance);
    operands::thrown(FaultCode::AboveClearance as u32, number)
}

// ---- on a label

fn raise(a: Account, l: Label) -> Decision
    ensures { result ≡ raise_of a.label a.clearance l }
{
    if !rises(a, l) {
        return too_high(a, l);
    }
    operands::decides(1, Effect::Raise)
}

// 25, with what the failing test answers.
fn lowering_fault(number: u32) -> Decision
    ensures { result ≡ thrown 25 number }
{
    operands::thrown(FaultCode::BadLowering as u32, number)
}

fn lower(a: Account, l: Label) -> Decision
    ensures { result ≡ lower_of a.label a.clearance l }
{
    if !labels::flows(a.label, l) {
        return lowering_fault(labels::flow_test(a.label, l));
    }
    if !labels::flows(l, a.clearance) {
        return lowering_fault(labels::flow_test(l, a.clearance));
    }
    operands::decides(1, Effect::Lower)
}

// 26.
fn no_place() -> Decision
    ensures { result ≡ faulty 26 }
{
    operands::faulty(FaultCode::NoPlace as u32)
}

// SEAL, NEW.
fn make(a: Account, kind: Kind, l: Label) -> Decision
    ensures { result ≡ make_of a kind l }
{
    if let Some(fault) = target(a, l) {
        return fault;
    }
    if a.limit <= a.next {
        return no_place();
    }
    operands::decides(2, Effect::Make(kind))
}

// BLOCK's checks on its n and k: the fault of the first that fails, if one does.
#[tactic(auto, unfolding(crate::specs::Decisions::room_of))]
fn room(a: Account, n: usize, k: usize) -> Option<Decision>
    ensures { result ≡ room_of a n k }
{
    if 8 <= a.depth {
        return Some(operands::faulty(FaultCode::TooDeep as u32));
    }
    if a.steps < n {
        return Some(operands::faulty(FaultCode::NoSteps as u32));
    }
    if a.limit.saturating_sub(a.next) <= k {
        return Some(no_place());
    }
    None
}

fn enter(a: Account, b: Label, t: usize, n: usize, k: usize) -> Decision
    ensures { result ≡ enter_of a b t n k }
{
    if let Some(fault) = target(a, b) {
        return fault;
    }
    if let Some(fault) = room(a, n, k) {
        return fault;
    }
    operands::decides(1, Effect::Block(t, n, k))
}

fn with_label(f: OnLabel, l: Label, a: Account) -> Decision
    ensures { result ≡ with_label_of f l a }
{
    match f {
        OnLabel::Raise => raise(a, l),
        OnLabel::Lower => lower(a, l),
        OnLabel::Make(kind) => make(a, kind, l),
        OnLabel::Block(t, n, k) => enter(a, l, t, n, k),
    }
}

// RAISE, LOWER, SEAL, NEW, BLOCK.
fn on_label(f: OnLabel, y: Datum, a: Account) -> Decision
    ensures { result ≡ on_label f y a }
{
    let Datum::Label(l) = y else {
        return operands::wrong_kind();
    };
    with_label(f, l, a)
}

// ---- on a handle

// 33.
fn no_record() -> Decision
    ensures { result ≡ faulty 33 }
{
    operands::faulty(FaultCode::NoRecord as u32)
}

// OPEN, READ.
fn open(p: usize, a: Account, store: &Store) -> Decision
    ensures { result ≡ open_of a.label a.clearance p (at store.now p) }
{
    let Some(r) = store::load(store, p) else {
        return no_record();
    };
    if !rises(a, r.label) {
        return too_high(a, r.label);
    }
    match r.contents {
        Contents::Value(_) => operands::decides(1, Effect::Open(p)),
        Contents::Fault(code, number) => {
            operands::decides(0, Effect::Fault(Some(p), code, number))
        }
    }
}

// LABOF.
fn label_of(p: usize, store: &Store) -> Decision
    ensures { result ≡ labelled_of p (at store.now p) }
{
    if store::load(store, p).is_none() {
        return no_record();
    }
    operands::decides(1, Effect::Label(Origin::Record(p)))
}

// WRITE.
fn write(p: usize, a: Account, store: &Store) -> Decision
    ensures { result ≡ write_of a.label a.clearance p (at store.now p) }
{
    let Some(r) = store::load(store, p) else {
        return no_record();
    };
    if let Some(fault) = target(a, r.label) {
        return fault;
    }
    operands::decides(2, Effect::Write(p))
}

fn with_handle(f: OnHandle, kind: Kind, p: usize, a: Account, store: &Store) -> Decision
    ensures { result ≡ with_handle f kind p a store.now }
{
    match f {
        OnHandle::Open(k) => {
            if kind != k {
                return operands::wrong_kind();
            }
            open(p, a, store)
        }
        OnHandle::Label => label_of(p, store),
        OnHandle::Write => {
            if kind != Kind::Reference {
                return operands::wrong_kind();
            }
            write(p, a, store)
        }
    }
}

// OPEN, READ, LABOF, WRITE.
fn on_handle(f: OnHandle, y: Datum, a: Account, store: &Store) -> Decision
    ensures { result ≡ on_handle f y a store.now }
{
    let Datum::Handle(kind, p) = y else {
        return operands::wrong_kind();
    };
    with_handle(f, kind, p, a, store)
}

// What the top two of the stack come to, with labels and records.
pub fn on_labels(t: LabelTask, y: Datum, x: Datum, a: Account, store: &Store) -> Decision
    ensures { result ≡ on_labels t y x a store.now }
{
    match t {
        LabelTask::Pair(f) => operands::two_labels(f, y, x),
        LabelTask::Label(f) => on_label(f, y, a),
        LabelTask::Handle(f) => on_handle(f, y, a, store),
    }
}

// ---- where a label lies

// The label that is to be pushed.
pub fn label_from(
    o: Origin,
    label: Label,
    clearance: Label,
    labels: &[Label; FILE_LABELS],
    store: &Store,
) -> Label
    ensures { result ≡ label_from o label clearance labels.now store.now }
{
    match o {
        Origin::File(i) => operands::label_at(labels, i),
        Origin::Current => label,
        Origin::Clearance => clearance,
        Origin::Record(p) => store::label_of(store, p),
    }
}

// JOIN, MEET: m is the label on top, l the one below.
pub fn paired(f: Both, m: Label, l: Label) -> Label
    ensures { result ≡ paired_of f m l }
{
    match f {
        Both::Join => labels::join(l, m),
        Both::Meet => labels::meet(l, m),
    }
}

// The label that a fault leaves, raised by the label of the record at a place, if there is one.
pub fn raised(label: Label, by: Option<usize>, store: &Store) -> Label
    ensures { result ≡ raised_by label by store.now }
{
    let Some(p) = by else {
        return label;
    };
    labels::join(label, store::label_of(store, p))
}

// ---- what is kept

// Puts a value under a label at a place.
pub fn keep(kind: Kind, label: Label, d: Datum, p: usize, store: &mut Store)
    ensures { store.new ≡ set store.old p (holding kind label (Contents.Value d)) }
{
    let contents = Contents::Value(d);
    store::save(
        store,
        p,
        Record {
            kind,
            label,
            contents,
        },
    );
}

// The contents of a block's outcome: 31 if the body's last label doesn't flow to the bound, however it ended.
#[tactic(auto, unfolding(model::specs::Effects::contents_of))]
fn outcome(label: Label, e: Ending, b: Label) -> Contents
    ensures { result ≡ sealed_of label e b }
{
    if !labels::flows(label, b) {
        return Contents::Fault(FaultCode::PastBound as u32, 0);
    }
    match e {
        Ending::Result(d) => Contents::Value(d),
        Ending::Fault(code, number) => Contents::Fault(code, number),
        Ending::Spent => Contents::Fault(FaultCode::BlockSpent as u32, 0),
    }
}

// Seals what a body came to, under its bound.
pub fn conclude(b: Label, label: Label, e: Ending, p: usize, store: &mut Store)
    ensures { store.new ≡ set store.old p (holding Kind.Sealed b (sealed_of label e b)) }
{
    store::save(
        store,
        p,
        Record {
            kind: Kind::Sealed,
            label: b,
            contents: outcome(label, e, b),
        },
    );
}
