// The run state, passed and returned by value, and the interpreter. The records are lent beside it: the state is copied, and
// 256 records in it would be copied too.
#![tactic(auto)]

ghost use Rattle.std.specs.Prelude.{◌≡◌, ◌+◌, ◌-◌, ◌≤◌, ◌<◌, length, get_or, set};
ghost use Rattle.model.specs.State.{value};
ghost use Rattle.model.specs.Running.{runs, start_control, start_account};
ghost use Rattle.operands.specs.Program.{count};
ghost use Rattle.machine.specs.State.{Ok, Ran, account, next_of, ending_of};
ghost use Rattle.machine.specs.State.{popped, pushed, label_raised, charged, no_frame, handled};
ghost use Rattle.machine.specs.Steps.{meant, Finishes, begun, fresh};
ghost use Rattle.machine.specs.Turns.{ready_of, decided, turns};

use labels::Label;
use model::{Account, Datum, Ending, Finished, Frame, Instr, Kind, Value};
use operands::{Decision, Effect, Task};
use store::Store;

mod program;

pub use program::Program;

// What a local is before it is set, and a place of the stack that was not reached. A constant, so that an array of it is
// zeroed in one go.
const NUMBER_0: Value = Value {
    datum: Datum::Number(0),
};

// In this order, since a method that sets a field moves what lies behind it, and one that moves over 1 KB is not inlined into a
// run that calls itself. The frames come before the stack, so that they are set where they lie. `limit` and `depth`, which no
// run sets, lie between the arrays, or these are moved as one. No ghost field says what holds of `top` and `newest` (`Ok`): the
// definitions of the methods build states, and would have to carry its proof. The arrays are of fixed size, as there is no heap.
#[derive(Clone, Copy)]
pub struct State {
    pub locals: [Value; 16],
    // The places left are those from `next` up to `limit`.
    pub limit: usize,
    // As the stack, the newest first.
    pub frames: [Frame; 8],
    // How many blocks the run is nested in.
    pub depth: usize,
    // Grows downwards: the values are those from `top` on, the top one first.
    pub stack: [Value; 32],
    pub top: usize,
    pub newest: usize,
    pub label: Label,
    pub clearance: Label,
    pub steps: usize,
    pub next: usize,
    pub pc: usize,
    // None while the run goes on.
    pub ending: Option<Ending>,
}

// How a run ended: one that was let go on for no step is spent. Case by case and not by `unwrap_or`, and so are the values and
// labels that a run leaves: copied whole they wait for their stores, and a block takes 1.4 times the time.
fn ending(e: Option<Ending>) -> Ending
    ensures { result ≡ ending_of e }
{
    match e {
        None => Ending::Spent,
        Some(Ending::Result(d)) => Ending::Result(values::same(d)),
        Some(Ending::Fault(code, n)) => Ending::Fault(code, n),
        Some(Ending::Spent) => Ending::Spent,
    }
}

// Puts a value on a stack and gives where it lies. The stack is lent, so that the state that it is part of stays in place.
fn put(stack: &mut [Value; 32], top: usize, datum: Datum) -> usize
    requires { (0 < top) × (top ≤ 32) }
    ensures lies { result ≡ top - 1 }
    ensures holds { stack.new ≡ set stack.old (top - 1) (value datum) }
{
    stack[top - 1] = Value { datum };
    top - 1
}

impl State {
    // Drops k values.
    pub fn pop(mut self, k: usize) -> State
        requires { self.top + k ≤ 32 }
        ensures { result ≡ popped k self }
    {
        self.top += k;
        self
    }

    // By this a caught fault's code and number come onto the stack; `put` is the same of a stack that is lent.
    pub fn push(mut self, v: Value) -> State
        requires { (0 < self.top) × (self.top ≤ 32) }
        ensures { result ≡ pushed v self }
    {
        self.top = put(&mut self.stack, self.top, v.datum);
        self
    }

    // Joins a label to the current one.
    pub fn raise(mut self, l: Label) -> State
        ensures { result ≡ label_raised l self }
    {
        self.label = labels::join(self.label, l);
        self
    }

    // Pays n steps.
    pub fn charge(mut self, n: usize) -> State
        requires { n ≤ self.steps }
        ensures { result ≡ charged n self }
    {
        self.steps -= n;
        self
    }

    // No field of the state, whose fields are in an order of their own.
    fn account(&self) -> Account
        ensures { result ≡ account self.now }
    {
        Account {
            label: self.label,
            clearance: self.clearance,
            steps: self.steps,
            next: self.next,
            limit: self.limit,
            depth: self.depth,
        }
    }

    // Whether the run goes on.
    fn ready(&self) -> bool
        ensures { result ≡ ready_of self.now }
    {
        self.ending.is_none() && 0 < self.steps
    }

    // Goes on at a frame's handler, with the frame's clearance; the handler gets a code and a number.
    fn caught(mut self, f: Frame, code: u32, number: u32) -> State
        requires { (self.top ≤ 32) × (self.newest < 8) × (f.height ≤ 30) }
        ensures { result ≡ handled f code number self }
    {
        self.newest += 1;
        self.pc = f.handler;
        self.clearance = f.clearance;
        self.top = values::cut(self.top, f.height);
        self.push(values::number(code)).push(values::number(number))
    }

    // The same of the newest frame. Lent and not inlined, so that a step has no copy of the state beside it: with one, a block
    // takes 1.2 times the time.
    #[inline(never)]
    fn catch(&mut self, code: u32, number: u32)
        requires places { (self.old.top ≤ 32) × (self.old.newest < 8) }
        requires low { (get_or self.old.frames self.old.newest no_frame).height ≤ 30 }
        ensures { self.new ≡ handled (get_or self.old.frames self.old.newest no_frame) code number self.old }
    {
        *self = self.caught(self.frames[self.newest], code, number);
    }

    // What an instruction comes to, where the two values on top lie at these places.
    fn decide(
        &self,
        i: Instr,
        first: usize,
        second: usize,
        records: &[u8],
        store: &Store,
    ) -> Decision
        requires values { (first < 32) × (second < 32) × (self.now.top ≤ 32) }
        requires rest { (self.now.newest ≤ 8) × (self.now.next ≤ self.now.limit) }
        ensures { result ≡ decided i first second records.now self.now store.now }
    {
        match operands::task_of(i, 32 - self.top, 8 - self.newest, records) {
            Task::Do(d) => d,
            Task::Numbers(t) => operands::on_numbers(
                t,
                self.stack[first].datum,
                self.stack[second].datum,
            ),
            Task::Labels(t) => {
                effects::on_labels(
                    t,
                    self.stack[first].datum,
                    self.stack[second].datum,
                    self.account(),
                    store,
                )
            }
        }
    }

    // Up to `count` instructions, as far as the run goes. The state stays in place: passed to a method that stores at an index
    // known at run time, it is copied. So this is one function, however long, and a value goes onto the stack by `put` here.
    #[cycle(step_run)]
    pub fn step(mut self, program: Program, store: &mut Store, count: usize) -> State
        requires { Ok self }
        ensures { Ran result store.new (turns (meant program.entry) count (next_of self store.old)) }
    {
        for _ in 0..count {
            if !self.ready() {
                return self;
            }
            self = self.charge(1);
            let f = decode::decode(program.code, self.pc);
            self.pc = f.after;
            // Where the two values on top lie, if they are there: read only where an instruction looks at them.
            let first = self.top.min(31);
            let second = (self.top + 1).min(31);
            // Decide,
            let d = self.decide(f.instr, first, second, program.records, store);
            // then apply, in place. A value that is dropped still lies where it lay.
            self = self.pop(d.takes);
            match d.effect {
                Effect::Fault(by, code, n) => {
                    self.label = effects::raised(self.label, by, store);
                    if self.newest == 8 {
                        self.ending = Some(Ending::Fault(code, n));
                    } else {
                        self.catch(code, n);
                    }
                }
                Effect::Drop => {}
                Effect::Jump(t) => self.pc = t,
                Effect::Number(n) => self.top = put(&mut self.stack, self.top, Datum::Number(n)),
                Effect::Handle(kind, p) => self.top = put(
                    &mut self.stack,
                    self.top,
                    Datum::Handle(kind, p),
                ),
                Effect::Label(o) => {
                    let l = effects::label_from(
                        o,
                        self.label,
                        self.clearance,
                        program.labels,
                        store,
                    );
                    self.top = put(&mut self.stack, self.top, Datum::Label(l));
                }
                Effect::Pair(f) => {
                    let m = values::label_in(self.stack[first]);
                    let l = values::label_in(self.stack[second]);
                    self.top = put(
                        &mut self.stack,
                        self.top,
                        Datum::Label(effects::paired(f, m, l)),
                    );
                }
                Effect::Get(i) => {
                    let d = values::present(i, 16, self.locals[i.min(15)]);
                    self.top = put(&mut self.stack, self.top, d);
                }
                Effect::Set(i) => {
                    if i < 16 {
                        self.locals[i] = self.stack[first];
                    }
                }
                Effect::Try(h) => {
                    self.newest -= 1;
                    self.frames[self.newest] = Frame {
                        handler: h,
                        height: 32 - self.top,
                        clearance: self.clearance,
                    };
                }
                Effect::Done => self.newest += 1,
                Effect::End => self.ending = Some(Ending::Result(values::same(
                    self.stack[first].datum,
                ))),
                Effect::Raise => self = self.raise(values::label_in(self.stack[first])),
                Effect::Lower => self.clearance = values::label_in(self.stack[first]),
                Effect::Make(kind) => {
                    let l = values::label_in(self.stack[first]);
                    effects::keep(kind, l, self.stack[second].datum, self.next, store);
                    self.top = put(&mut self.stack, self.top, Datum::Handle(kind, self.next));
                    self.next += 1;
                }
                Effect::Write(p) => store::rewrite(store, p, self.stack[second].datum),
                Effect::Open(p) => {
                    let l = store::label_of(store, p);
                    let d = store::value_of(store, p);
                    self = self.raise(l);
                    self.top = put(&mut self.stack, self.top, d);
                }
                // The body runs on a state of its own, so label, clearance, stack and frames are the outer run's own
                // afterwards. Its outcome is sealed under the bound in the first of its places, which are paid with
                // its steps, and the record's handle takes the bound's place on the stack.
                Effect::Block(t, n, places) => {
                    let body = values::inside(self.account(), n, places);
                    let done = run(t, &self.locals, body, program, store);
                    let b = values::label_in(self.stack[first]);
                    effects::conclude(b, done.label, done.ending, self.next, store);
                    self = self.charge(n);
                    self.top = put(
                        &mut self.stack,
                        self.top,
                        Datum::Handle(Kind::Sealed, self.next),
                    );
                    self.next += 1 + places;
                }
            }
        }
        self
    }
}

// A run to its end, from pc on with these locals, an empty stack and no frames.
#[cycle(step_run)]
fn run(pc: usize, locals: &[Value; 16], a: Account, program: Program, store: &mut Store) -> Finished
    requires { (a.next ≤ a.limit) × (a.limit ≤ 256) }
    ensures { Finishes result store.new (runs (meant program.entry) (begun pc locals.now) a store.old) }
{
    let r = start(pc, locals, a).step(program, store, a.steps);
    Finished {
        ending: ending(r.ending),
        label: values::same_label(r.label),
        clearance: values::same_label(r.clearance),
        steps: r.steps,
        next: r.next,
    }
}

// A run that has not begun.
fn start(pc: usize, locals: &[Value; 16], a: Account) -> State
    ensures { result ≡ fresh pc locals.now a }
{
    State {
        locals: *locals,
        stack: [NUMBER_0; 32],
        frames: [Frame {
            handler: 0,
            height: 0,
            clearance: labels::no_label(),
        }; 8],
        top: 32,
        newest: 8,
        label: a.label,
        clearance: a.clearance,
        steps: a.steps,
        next: a.next,
        limit: a.limit,
        depth: a.depth,
        pc,
        ending: None,
    }
}

// Runs a loaded file from its start, the input records being in the store already.
pub fn execute(
    program: Program,
    label: Label,
    clearance: Label,
    steps: usize,
    places: usize,
    store: &mut Store,
) -> Finished
    requires { (count program.records.now ≤ places) × (places ≤ 256) }
    ensures { Finishes result store.new
        (runs (meant program.entry) start_control
        (start_account label clearance steps (count program.entry.records.now) places)
        store.old) }
{
    let a = Account {
        label,
        clearance,
        steps,
        next: program.records.len() / 6,
        limit: places,
        depth: 0,
    };
    run(0, &[NUMBER_0; 16], a, program, store)
}
