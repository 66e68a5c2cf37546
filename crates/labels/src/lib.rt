// Labels, their order, join and meet.
#![tactic(auto)]

ghost use Rattle.std.specs.Prelude.{◌≡◌, cond, ◌+◌, ◌-◌, ◌^◌};
ghost use Rattle.std.specs.Int.Bits.{bit_and};
ghost use Rattle.labels.specs.Tables.{table_implies, table_and, table_or, lowest};
ghost use Rattle.labels.specs.Order.{flow_test, flows, join, meet, no_label};

// How many principals there are.
pub const PRINCIPALS: u64 = 8;

// A formula's table: bit i of the whole stands for the set of principals whose mask is i. Four words, lowest first, since the
// requirement has formulas as such words.
#[derive(Clone, Copy)]
pub struct Table {
    pub word0: u64,
    pub word1: u64,
    pub word2: u64,
    pub word3: u64,
}

// A label ⟨S, I⟩: the tables of its secrecy and its integrity formula.
#[derive(Clone, Copy)]
pub struct Label {
    pub secrecy: Table,
    pub integrity: Table,
}

// ---- labels

// What keeps ⟨S, I⟩ from flowing to ⟨S', I'⟩: 1 where S' does not imply S (secrecy), 2 where I does not imply I'
// (integrity), 3 where both fail, and 0 where it flows. A number, since a fault tells it to the script as one.
#[tactic(auto, unfolding(crate::specs::Order::flow_test))]
pub fn flow_test(a: Label, b: Label) -> u32
    ensures { result ≡ flow_test a b }
{
    failing(b.secrecy, a.secrecy, 1) + failing(a.integrity, b.integrity, 2)
}

pub fn flows(a: Label, b: Label) -> bool
    ensures { result ≡ flows a b }
{
    flow_test(a, b) == 0
}

// The least label that both flow to: ⟨S and S', I or I'⟩.
#[tactic(auto, unfolding(crate::specs::Order::join))]
pub fn join(a: Label, b: Label) -> Label
    ensures { result ≡ join a b }
{
    Label {
        secrecy: both(a.secrecy, b.secrecy),
        integrity: either(a.integrity, b.integrity),
    }
}

// The greatest label that flows to both: ⟨S or S', I and I'⟩.
#[tactic(auto, unfolding(crate::specs::Order::meet))]
pub fn meet(a: Label, b: Label) -> Label
    ensures { result ≡ meet a b }
{
    Label {
        secrecy: either(a.secrecy, b.secrecy),
        integrity: both(a.integrity, b.integrity),
    }
}

// What stands where there is no label: ⟨False, False⟩.
pub fn no_label() -> Label
    ensures { result ≡ no_label }
{
    Label {
        secrecy: low_table(0),
        integrity: low_table(0),
    }
}

// ---- tables, word by word
// Each function writes its four words out: one over a closure needs a contract about the closure, and is no plainer.

// 0 where the table `a` implies the table `b`, that is, every set in `a` is in `b`; else the half's number n.
fn failing(a: Table, b: Table, n: u32) -> u32
    ensures { result ≡ cond (table_implies a b) 0 n }
{
    if implies(a, b) {
        return 0;
    }
    n
}

fn implies(a: Table, b: Table) -> bool
    ensures { result ≡ table_implies a b }
{
    let low = beyond(a.word0, b.word0) | beyond(a.word1, b.word1);
    let high = beyond(a.word2, b.word2) | beyond(a.word3, b.word3);
    low | high == 0
}

// The sets in a word of one table that are not in the same word of another.
fn beyond(a: u64, b: u64) -> u64
    ensures { result ≡ bit_and a (2 ^ 64 - 1 - b) }
{
    a & !b
}

// The table of the AND of two formulas.
pub fn both(a: Table, b: Table) -> Table
    ensures { result ≡ table_and a b }
{
    Table {
        word0: a.word0 & b.word0,
        word1: a.word1 & b.word1,
        word2: a.word2 & b.word2,
        word3: a.word3 & b.word3,
    }
}

// The table of the OR of two formulas.
pub fn either(a: Table, b: Table) -> Table
    ensures { result ≡ table_or a b }
{
    Table {
        word0: a.word0 | b.word0,
        word1: a.word1 | b.word1,
        word2: a.word2 | b.word2,
        word3: a.word3 | b.word3,
    }
}

// The table with this lowest word, and zeros above it.
pub fn low_table(n: u64) -> Table
    ensures { result ≡ lowest n }
{
    Table {
        word0: n,
        word1: 0,
        word2: 0,
        word3: 0,
    }
}

// How many words a table takes. A word has a bit for each set of the first six principals.
pub const TABLE_WORDS: usize = 1 << (PRINCIPALS - 6);
