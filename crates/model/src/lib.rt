// The plain data that the machine, its definition and the view speak of.
#![tactic(auto)]

use labels::Label;

// How many labels a file may have.
pub const FILE_LABELS: usize = 32;

// The two kinds of record. In the field's terms a sealed record is a labeled value, and a reference a
// labeled mutable reference.
#[derive(Clone, Copy, PartialEq, Eq, Debug)]
pub enum Kind {
    Sealed,
    Reference,
}

// What a value is: a number, a label, or a handle to the record at a place. A place is a location of the store.
#[derive(Clone, Copy)]
pub enum Datum {
    Number(u32),
    Label(Label),
    Handle(Kind, usize),
}

#[derive(Clone, Copy)]
pub struct Value {
    pub datum: Datum,
}

// A record holds a value, or a fault (its code and number): a sealed fault is a delayed exception. The requirement names the
// form, an enum with a value case. The code is a number, since a handler gets it as one.
#[derive(Clone, Copy)]
pub enum Contents {
    Value(Datum),
    Fault(u32, u32),
}

// In this order: a one-byte field in front of a label has it copied off its alignment, which is slow.
#[derive(Clone, Copy)]
pub struct Record {
    pub label: Label,
    pub contents: Contents,
    pub kind: Kind,
}

// A place of the store: a record, or none.
pub type Slot = Option<Record>;

// A try frame: where its handler starts; how many values were on the stack at TRY, and the clearance that stood there.
#[derive(Clone, Copy)]
pub struct Frame {
    pub handler: usize,
    pub height: usize,
    pub clearance: Label,
}

// The instructions, in the order of their opcodes 00 to 1D.
#[derive(Clone, Copy)]
pub enum Instr {
    End,
    Push(u32),
    Lab(usize),
    Get(usize),
    Set(usize),
    Pop,
    Add,
    Sub,
    Less,
    Same,
    Jump(usize),
    Ifz(usize),
    Cur,
    Clr,
    Raise,
    Lower,
    Flows,
    Join,
    Meet,
    Seal,
    Open,
    Labof,
    New,
    Read,
    Write,
    // target, steps, places
    Block(usize, usize, usize),
    Try(usize),
    Done,
    Throw,
    Input(usize),
}

// The account of a run: what it is charged to and checked against. Places are given out in order and not given back in a
// run, so "places left" is limit less next: a run's allotment (its quota) is the places from next up to limit.
#[derive(Clone, Copy)]
pub struct Account {
    pub label: Label,
    pub clearance: Label,
    pub steps: usize,
    pub next: usize,
    pub limit: usize,
    // How many blocks the run is nested in.
    pub depth: usize,
}

// The codes of the machine's faults, as scripts see them.
#[derive(Clone, Copy, PartialEq, Eq, Debug)]
pub enum FaultCode {
    StackShort = 20,
    StackFull = 21,
    WrongKind = 22,
    BelowLabel = 23,
    AboveClearance = 24,
    BadLowering = 25,
    NoPlace = 26,
    NoSteps = 27,
    TooDeep = 28,
    // TRY with eight frames, or DONE with none.
    Frames = 29,
    Thrown = 30,
    PastBound = 31,
    BlockSpent = 32,
    NoRecord = 33,
}

// How a run ends. A fault has its code and its number, as in a record.
#[derive(Clone, Copy)]
pub enum Ending {
    Result(Datum),
    Fault(u32, u32),
    Spent,
}

// What a run leaves, beside the store: how it ended, its last label and clearance, the steps that it had left, and the
// next place.
#[derive(Clone, Copy)]
pub struct Finished {
    pub ending: Ending,
    pub label: Label,
    pub clearance: Label,
    pub steps: usize,
    pub next: usize,
}
