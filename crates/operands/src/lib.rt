// What an instruction has to look at, and what it comes to on numbers: faults 20, 21, 22, 29 and 30. Nothing that is answered
// here holds a label or a value: an effect says where it lies.
#![tactic(auto)]

ghost use Rattle.std.specs.Prelude.{◌≡◌};
ghost use Rattle.model.specs.FileLabels.{label_in};
ghost use Rattle.model.specs.Inputs.{kind_of};
ghost use Rattle.operands.specs.Tasks.{decided, thrown, faulty, bit_of, arith_of, numbers_of, test_of, number_of, on_numbers};
ghost use Rattle.operands.specs.Tasks.{label_of, pair_of, labels_of, short_of, push_of, try_of, done_of, input_of, task_of};

use labels::Label;
use model::{Datum, FILE_LABELS, FaultCode, Instr, Kind};

// Where a label lies that is to be pushed.
#[derive(Clone, Copy)]
pub enum Origin {
    // among the file's labels
    File(usize),
    Current,
    Clearance,
    // of the record at a place
    Record(usize),
}

// What is made of the two labels on top.
#[derive(Clone, Copy)]
pub enum Both {
    Join,
    Meet,
}

// What the run state has to take over, its operands dropped: small words only.
#[derive(Clone, Copy)]
pub enum Effect {
    // the place of the record whose label raises the label, if one does; code, number
    Fault(Option<usize>, u32, u32),
    // nothing more
    Drop,
    Jump(usize),
    Number(u32),
    Handle(Kind, usize),
    Label(Origin),
    Pair(Both),
    Get(usize),
    Set(usize),
    Try(usize),
    Done,
    End,
    // by the label on top
    Raise,
    // to the label on top
    Lower,
    // a record at the next place, under the label on top, of the value below it
    Make(Kind),
    // the value below the top into the record at a place
    Write(usize),
    // the value of the record at a place, by whose label the label is raised
    Open(usize),
    // a body under the label on top: target, steps, places
    Block(usize, usize, usize),
}

// How many operands are dropped, all of them there, and what is done then. A fault drops none.
#[derive(Clone, Copy)]
pub struct Decision {
    pub takes: usize,
    pub effect: Effect,
}

#[derive(Clone, Copy)]
pub enum Arith {
    Add,
    Sub,
    Less,
    Same,
}

#[derive(Clone, Copy)]
pub enum Test {
    Branch(usize),
    Throw,
}

#[derive(Clone, Copy)]
pub enum Pair {
    Flows,
    Join,
    Meet,
}

// What is done on numbers.
#[derive(Clone, Copy)]
pub enum NumberTask {
    Test(Test),
    Arith(Arith),
}

// What is done on a label, which lies on top.
#[derive(Clone, Copy)]
pub enum OnLabel {
    Raise,
    Lower,
    // of the value below it
    Make(Kind),
    // target, steps, places
    Block(usize, usize, usize),
}

// What is done on a handle, which lies on top.
#[derive(Clone, Copy)]
pub enum OnHandle {
    // it is of this kind
    Open(Kind),
    Label,
    // of the value below it
    Write,
}

// What is done on labels and records.
#[derive(Clone, Copy)]
pub enum LabelTask {
    Pair(Pair),
    Label(OnLabel),
    Handle(OnHandle),
}

// What is to be looked at, once there are operands and room enough.
#[derive(Clone, Copy)]
pub enum Task {
    // nothing
    Do(Decision),
    Numbers(NumberTask),
    Labels(LabelTask),
}

pub fn decides(takes: usize, effect: Effect) -> Decision
    ensures { result ≡ decided takes effect }
{
    Decision { takes, effect }
}

// A fault that raises no label.
pub fn thrown(code: u32, number: u32) -> Decision
    ensures { result ≡ thrown code number }
{
    decides(0, Effect::Fault(None, code, number))
}

// A fault that raises no label, with number 0.
pub fn faulty(code: u32) -> Decision
    ensures { result ≡ faulty code }
{
    thrown(code, 0)
}

// Fault 22: an operand is of another kind.
pub fn wrong_kind() -> Decision
    ensures { result ≡ faulty 22 }
{
    faulty(FaultCode::WrongKind as u32)
}

// ---- numbers

// 1 or 0, for two operands.
fn bit(b: bool) -> Decision
    ensures { result ≡ bit_of b }
{
    decides(2, Effect::Number(u32::from(b)))
}

fn computed(f: Arith, y: u32, x: u32) -> Decision
    ensures { result ≡ arith_of f y x }
{
    match f {
        Arith::Add => decides(2, Effect::Number(x.wrapping_add(y))),
        Arith::Sub => decides(2, Effect::Number(x.wrapping_sub(y))),
        Arith::Less => bit(x < y),
        Arith::Same => bit(x == y),
    }
}

// ADD, SUB, LESS, SAME.
fn numbers(f: Arith, y: Datum, x: Datum) -> Decision
    ensures { result ≡ numbers_of f y x }
{
    let Datum::Number(b) = y else {
        return wrong_kind();
    };
    let Datum::Number(a) = x else {
        return wrong_kind();
    };
    computed(f, b, a)
}

fn tested(f: Test, n: u32) -> Decision
    ensures { result ≡ test_of f n }
{
    match f {
        Test::Branch(t) => {
            if n == 0 {
                return decides(1, Effect::Jump(t));
            }
            decides(1, Effect::Drop)
        }
        Test::Throw => thrown(FaultCode::Thrown as u32, n),
    }
}

// IFZ, THROW.
fn number(f: Test, y: Datum) -> Decision
    ensures { result ≡ number_of f y }
{
    let Datum::Number(n) = y else {
        return wrong_kind();
    };
    tested(f, n)
}

// What the top two of the stack come to as numbers.
pub fn on_numbers(t: NumberTask, y: Datum, x: Datum) -> Decision
    ensures { result ≡ on_numbers t y x }
{
    match t {
        NumberTask::Test(f) => number(f, y),
        NumberTask::Arith(f) => numbers(f, y, x),
    }
}

// ---- labels

// The label that a datum is; ⟨False, False⟩ for any other.
pub fn label_of(d: Datum) -> Label
    ensures { result ≡ label_of d }
{
    let Datum::Label(l) = d else {
        return labels::no_label();
    };
    l
}

fn of_pair(f: Pair, m: Label, l: Label) -> Decision
    ensures { result ≡ pair_of f m l }
{
    match f {
        Pair::Flows => bit(labels::flows(l, m)),
        Pair::Join => decides(2, Effect::Pair(Both::Join)),
        Pair::Meet => decides(2, Effect::Pair(Both::Meet)),
    }
}

// FLOWS, JOIN, MEET.
pub fn two_labels(f: Pair, y: Datum, x: Datum) -> Decision
    ensures { result ≡ labels_of f y x }
{
    let Datum::Label(m) = y else {
        return wrong_kind();
    };
    let Datum::Label(l) = x else {
        return wrong_kind();
    };
    of_pair(f, m, l)
}

// ---- the file's own values

// Label i of the file; ⟨False, False⟩ behind the last.
#[tactic(auto, unfolding(model::specs::FileLabels::label_in))]
pub fn label_at(labels: &[Label; FILE_LABELS], i: usize) -> Label
    ensures { result ≡ label_in labels.now i }
{
    labels.get(i).copied().unwrap_or(labels::no_label())
}

// The bytes of an input record.
const INPUT: usize = 6;

// The kind of an input record, by the first of its bytes. Total, as the definition is: check 6 has let 0 and 1 alone pass.
pub fn kind_of(b: u8) -> Kind
    ensures { result ≡ kind_of b }
{
    if b == 0 {
        return Kind::Sealed;
    }
    Kind::Reference
}

// INPUT: the handle of input record i, whose place is i.
fn input(records: &[u8], i: usize) -> Effect
    ensures { result ≡ input_of records.now i }
{
    if records.len() / INPUT <= i {
        return Effect::Number(0);
    }
    Effect::Handle(kind_of(records[INPUT * i]), i)
}

// ---- the instructions

// Fault 20.
fn short(height: usize, takes: usize, p: Task) -> Task
    ensures { result ≡ short_of height takes p }
{
    if height < takes {
        return Task::Do(faulty(FaultCode::StackShort as u32));
    }
    p
}

// A task on a label, and on a handle: a variant each.
fn label_task(height: usize, takes: usize, f: OnLabel) -> Task
    ensures { result ≡ short_of height takes (Task.Labels (LabelTask.Label f)) }
{
    short(height, takes, Task::Labels(LabelTask::Label(f)))
}

fn handle_task(height: usize, takes: usize, f: OnHandle) -> Task
    ensures { result ≡ short_of height takes (Task.Labels (LabelTask.Handle f)) }
{
    short(height, takes, Task::Labels(LabelTask::Handle(f)))
}

// Fault 21.
fn full() -> Task
    ensures { result ≡ Task.Do (faulty 21) }
{
    Task::Do(faulty(FaultCode::StackFull as u32))
}

// Fault 29.
fn no_frame() -> Task
    ensures { result ≡ Task.Do (faulty 29) }
{
    Task::Do(faulty(FaultCode::Frames as u32))
}

// One more value on the stack.
fn push(height: usize, e: Effect) -> Task
    ensures { result ≡ push_of height e }
{
    if 31 < height {
        return full();
    }
    Task::Do(decides(0, e))
}

// TRY: its handler gets a code and a number.
fn try_frame(height: usize, frames: usize, h: usize) -> Task
    ensures { result ≡ try_of height frames h }
{
    if 30 < height {
        return full();
    }
    if frames < 8 {
        return Task::Do(decides(0, Effect::Try(h)));
    }
    no_frame()
}

fn done(frames: usize) -> Task
    ensures { result ≡ done_of frames }
{
    if frames == 0 {
        return no_frame();
    }
    Task::Do(decides(0, Effect::Done))
}

// What an instruction has to look at, with so many values and frames.
#[tactic(auto, unfolding(crate::specs::Tasks::task_of))]
pub fn task_of(i: Instr, height: usize, frames: usize, records: &[u8]) -> Task
    ensures { result ≡ task_of i height frames records.now }
{
    match i {
        Instr::End => short(height, 1, Task::Do(decides(1, Effect::End))),
        Instr::Push(n) => push(height, Effect::Number(n)),
        Instr::Lab(j) => push(height, Effect::Label(Origin::File(j))),
        Instr::Get(j) => push(height, Effect::Get(j)),
        Instr::Set(j) => short(height, 1, Task::Do(decides(1, Effect::Set(j)))),
        Instr::Pop => short(height, 1, Task::Do(decides(1, Effect::Drop))),
        Instr::Add => short(height, 2, Task::Numbers(NumberTask::Arith(Arith::Add))),
        Instr::Sub => short(height, 2, Task::Numbers(NumberTask::Arith(Arith::Sub))),
        Instr::Less => short(height, 2, Task::Numbers(NumberTask::Arith(Arith::Less))),
        Instr::Same => short(height, 2, Task::Numbers(NumberTask::Arith(Arith::Same))),
        Instr::Jump(t) => Task::Do(decides(0, Effect::Jump(t))),
        Instr::Ifz(t) => short(height, 1, Task::Numbers(NumberTask::Test(Test::Branch(t)))),
        Instr::Cur => push(height, Effect::Label(Origin::Current)),
        Instr::Clr => push(height, Effect::Label(Origin::Clearance)),
        Instr::Raise => label_task(height, 1, OnLabel::Raise),
        Instr::Lower => label_task(height, 1, OnLabel::Lower),
        Instr::Flows => short(height, 2, Task::Labels(LabelTask::Pair(Pair::Flows))),
        Instr::Join => short(height, 2, Task::Labels(LabelTask::Pair(Pair::Join))),
        Instr::Meet => short(height, 2, Task::Labels(LabelTask::Pair(Pair::Meet))),
        Instr::Seal => label_task(height, 2, OnLabel::Make(Kind::Sealed)),
        Instr::Open => handle_task(height, 1, OnHandle::Open(Kind::Sealed)),
        Instr::Labof => handle_task(height, 1, OnHandle::Label),
        Instr::New => label_task(height, 2, OnLabel::Make(Kind::Reference)),
        Instr::Read => handle_task(height, 1, OnHandle::Open(Kind::Reference)),
        Instr::Write => handle_task(height, 2, OnHandle::Write),
        Instr::Block(t, n, k) => label_task(height, 1, OnLabel::Block(t, n, k)),
        Instr::Try(h) => try_frame(height, frames, h),
        Instr::Done => done(frames),
        Instr::Throw => short(height, 1, Task::Numbers(NumberTask::Test(Test::Throw))),
        Instr::Input(j) => push(height, input(records, j)),
    }
}
