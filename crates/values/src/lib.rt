// Values as the machine reads, makes and copies them; and what it works out of small numbers and accounts.
#![tactic(auto)]

ghost use Rattle.std.specs.Prelude.{◌≡◌, ◌+◌, ◌-◌, ◌≤◌, ◌<◌, min};
ghost use Rattle.model.specs.Effects.{body_account};
ghost use Rattle.model.specs.State.{number};
ghost use Rattle.operands.specs.Tasks.{label_of};
ghost use Rattle.values.specs.Present.{present_of};

use labels::{Label, Table};
use model::{Account, Datum, Kind, Value};

pub fn number(n: u32) -> Value
    ensures { result ≡ number n }
{
    Value {
        datum: Datum::Number(n),
    }
}

// How many values a stack holds.
const STACK: usize = 32;

// Where the top of a stack lies, which grows downwards, once it is cut to a height; left if it is lower.
pub fn cut(top: usize, height: usize) -> usize
    requires { top ≤ 32 }
    ensures { result ≡ 32 - min (32 - top) height }
{
    let kept = (STACK - top).min(height);
    STACK - kept
}

// The account that a block's body starts with: n steps, k places behind its outcome's.
pub fn inside(a: Account, n: usize, k: usize) -> Account
    requires { (a.depth < 8) × (a.next + 1 + k ≤ 256) }
    ensures { result ≡ body_account n k a }
{
    Account {
        steps: n,
        next: a.next + 1,
        limit: a.next + 1 + k,
        depth: a.depth + 1,
        ..a
    }
}

// The same datum, field by field: one that was stored so and is loaded whole waits for its stores, and a block takes 1.6 times
// as long.
pub fn same(d: Datum) -> Datum
    ensures { result ≡ d }
{
    match d {
        Datum::Number(n) => Datum::Number(n),
        Datum::Label(l) => Datum::Label(same_label(l)),
        Datum::Handle(Kind::Sealed, p) => Datum::Handle(Kind::Sealed, p),
        Datum::Handle(Kind::Reference, p) => Datum::Handle(Kind::Reference, p),
    }
}

// The same label, word by word, for the same reason.
pub fn same_label(l: Label) -> Label
    ensures { result ≡ l }
{
    Label {
        secrecy: same_table(l.secrecy),
        integrity: same_table(l.integrity),
    }
}

fn same_table(t: Table) -> Table
    ensures { result ≡ t }
{
    Table {
        word0: t.word0,
        word1: t.word1,
        word2: t.word2,
        word3: t.word3,
    }
}

// What was read for place i of n: past the end stands the number 0.
pub fn present(i: usize, n: usize, v: Value) -> Datum
    ensures { result ≡ present_of i n v }
{
    if i < n {
        return v.datum;
    }
    Datum::Number(0)
}

// The label that a value is.
pub fn label_in(v: Value) -> Label
    ensures { result ≡ label_of v.datum }
{
    operands::label_of(v.datum)
}
