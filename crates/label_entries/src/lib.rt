// Label entries, as a file has them: read and written.
#![tactic(auto)]

ghost use Rattle.std.specs.Prelude.{◌≡◌, [], ◌∷◌, ◌<◌, ◌^◌, length};
ghost use Rattle.formulas.specs.Bits.{bit};
ghost use Rattle.formulas.specs.Formula.{table};
ghost use Rattle.labels.specs.Tables.{principals, whole, in_words, word_at};
ghost use Rattle.formulas.specs.Normal.{passes_with, maximal_false, clauses};
ghost use Rattle.label_entries.specs.Entries.{read_formula, read_entry, write_answer, write_buffer};

use labels::{Label, PRINCIPALS, Table};

// ---- reading a label entry

// The label entry at the start of `s`, and how many bytes it has: two counts of clauses, then the masks of both formulas.
pub fn read_entry(s: &[u8]) -> Option<(Label, usize)>
    ensures { result ≡ read_entry s.now }
{
    let [m, n, masks @ ..] = s else {
        return None;
    };
    let (secrecy, rest) = masks.split_at_checked(usize::from(*m))?;
    let (integrity, _) = rest.split_at_checked(usize::from(*n))?;
    let label = Label {
        secrecy: read_formula(secrecy)?,
        integrity: read_formula(integrity)?,
    };
    Some((label, 2 + secrecy.len() + integrity.len()))
}

// The formula with the clauses `masks`: they ascend strictly, and none is a subset of another. Each byte is the mask of a set of
// principals. A clause has none of those before it as a subset where the principals outside it satisfy these.
fn read_formula(masks: &[u8]) -> Option<Table>
    ensures { result ≡ read_formula masks.now }
{
    if MOST_CLAUSES < masks.len() {
        return None;
    }
    let mut t = Table {
        word0: u64::MAX,
        word1: u64::MAX,
        word2: u64::MAX,
        word3: u64::MAX,
    };
    let mut least = 0;
    for &mask in masks {
        let c = u64::from(mask);
        if c < least {
            return None;
        }
        if !contains(t, !mask) {
            return None;
        }
        t = labels::both(t, clause_table(mask));
        least = c + 1;
    }
    Some(t)
}

// As many clauses as a formula has at most: the sets of half of the principals.
const MOST_CLAUSES: usize = 70;

// The table of one clause.
fn clause_table(mask: u8) -> Table
    ensures { result ≡ in_words (table principals (mask ∷ [])) }
{
    let six = first_six(mask);
    Table {
        word0: clause_word(mask, six, 0),
        word1: clause_word(mask, six, 1),
        word2: clause_word(mask, six, 2),
        word3: clause_word(mask, six, 3),
    }
}

// Word k of the table of a clause. The sets that stand there have the principals from 6 on that k has: either one of these is
// a member of the clause, and all of them satisfy it, or it is left to the first six, whose word is given.
fn clause_word(mask: u8, six: u64, k: u8) -> u64
    requires { (k < 4) × (six ≡ table 6 (mask ∷ [])) }
    ensures { result ≡ word_at k (table principals (mask ∷ [])) }
{
    if mask >> 6 & k != 0 {
        return u64::MAX;
    }
    six
}

// The sets of the first six principals that share a member with a clause: the OR of the words of its members.
fn first_six(mask: u8) -> u64
    ensures { result ≡ table 6 (mask ∷ []) }
{
    let mut t = 0;
    for (p, single) in SINGLE.iter().enumerate() {
        if has(u64::from(mask), p as u64) {
            t |= single;
        }
    }
    t
}

// At p, the word of the clause with the one member p.
const SINGLE: [u64; 6] = [
    0xAAAA_AAAA_AAAA_AAAA,
    0xCCCC_CCCC_CCCC_CCCC,
    0xF0F0_F0F0_F0F0_F0F0,
    0xFF00_FF00_FF00_FF00,
    0xFFFF_0000_FFFF_0000,
    0xFFFF_FFFF_0000_0000,
];

// ---- writing a label entry

// Writes the entry of `l` to the start of `out`, and gives how many bytes it has. Where `out` has no room it is left alone.
pub fn write_entry(l: Label, out: &mut [u8]) -> Option<usize>
    ensures { (result ≡ write_answer l out.old) × (out.new ≡ write_buffer l out.old) }
{
    let m = count_clauses(l.secrecy);
    let n = count_clauses(l.integrity);
    let a = 2 + m;
    let e = a + n;
    if out.len() < e {
        return None;
    }
    out[0] = m as u8;
    out[1] = n as u8;
    write_clauses(l.secrecy, &mut out[2..a]);
    write_clauses(l.integrity, &mut out[a..e]);
    Some(e)
}

// How many clauses the one list of the table `t` has. Counted by hand: a chain that filters the range of masks was tried, here
// and in `write_clauses`, and its proof didn't close.
fn count_clauses(t: Table) -> usize
    ensures { result ≡ length (clauses principals (whole t)) }
{
    let mut n = 0;
    for c in 0..SETS {
        if maximal_false(t, !(c as u8)) {
            n += 1;
        }
    }
    n
}

// Writes the one list of clauses of the table `t` over `out`, which has its length.
// `n` counts by hand, as in `count_clauses`.
fn write_clauses(t: Table, out: &mut [u8])
    requires { length out.old ≡ length (clauses principals (whole t)) }
    ensures { out.new ≡ clauses principals (whole t) }
{
    let mut n = 0;
    for mask in 0..SETS {
        if maximal_false(t, !(mask as u8)) {
            out[n] = mask as u8;
            n += 1;
        }
    }
}

// How many sets of principals there are.
const SETS: u64 = 1 << PRINCIPALS;

// Whether the set `x` is not in the table `t`, and is with any one more principal. By a `for`: `all` over the principals was
// tried, and its proof didn't close.
fn maximal_false(t: Table, x: u8) -> bool
    ensures { result ≡ maximal_false principals (whole t) x }
{
    if contains(t, x) {
        return false;
    }
    for p in 0..PRINCIPALS {
        if !passes_with(t, x, p) {
            return false;
        }
    }
    true
}

// Whether `p` is in the set `x`, or `x` with `p` is in the table `t`.
fn passes_with(t: Table, x: u8, p: u64) -> bool
    requires { p < principals }
    ensures { result ≡ passes_with (whole t) x p }
{
    has(u64::from(x), p) || contains(t, x | singleton(p))
}

// The set of the one principal `p`.
fn singleton(p: u64) -> u8
    requires { p < principals }
    ensures { result ≡ 2 ^ p }
{
    1 << p
}

// ---- bits

// Whether the set `x` is in the table `t`.
fn contains(t: Table, x: u8) -> bool
    ensures { result ≡ bit (whole t) x }
{
    let x = u64::from(x);
    if x < 64 {
        return has(t.word0, x);
    }
    if x < 128 {
        return has(t.word1, x - 64);
    }
    if x < 192 {
        return has(t.word2, x - 128);
    }
    has(t.word3, x - 192)
}

// Bit `i` of `w`: whether it is in a word of a table, or the principal `i` in the set `w`.
fn has(w: u64, i: u64) -> bool
    requires { i < 64 }
    ensures { result ≡ bit w i }
{
    w >> i & 1 != 0
}
