// Check 7, on the bytes of a script's code: every instruction known, whole and within its limits, every target an
// instruction's start, and the last instruction one that may be last.
#![tactic(auto)]

ghost use Rattle.std.specs.Prelude.{◌≡◌, false, ◌≤◌, ◌<◌, ◌^◌, length, get_or};
ghost use Rattle.code_check.specs.Sweep.{starts, all, last_of, instr_ok, may_be_last, code_ok};
ghost use Rattle.code_check.specs.Marks.{mark, Marks, OperandsIn};

use decode::{Decoded, opcodes};
use model::Instr;

// The most bytes that a script's code has, and the last local.
pub const CODE: usize = 4096;

const LAST_LOCAL: usize = 15;

// Marks the instruction starts, by one sweep, and gives the last. By `while`, as each step is as long as its instruction.
fn mark_starts(code: &[u8], marks: &mut [bool; CODE]) -> usize
    requires { length code.now ≤ 4096 }
    ensures { (result ≡ last_of 0 (starts code.now)) × (marks.new ≡ mark (starts code.now) marks.old) }
{
    let mut last: usize = 0;
    let mut i: usize = 0;
    while i < code.len() {
        marks[i] = true;
        last = i;
        i += decode::size_of(code[i]);
    }
    last
}

fn is_start(marks: &[bool; CODE], t: usize) -> bool
    ensures { result ≡ get_or marks.now t false }
{
    marks.get(t).copied().unwrap_or(false)
}

// Whether an instruction's operands are within their limits, in a file of `labels` labels and `inputs` input records.
#[tactic(auto, unfolding(crate::specs::Sweep::operands_ok))]
fn operands_ok(instr: Instr, marks: &[bool; CODE], labels: usize, inputs: usize) -> bool
    ensures { OperandsIn labels inputs marks.now instr result }
{
    match instr {
        Instr::Lab(i) => i < labels,
        Instr::Get(i) | Instr::Set(i) => i <= LAST_LOCAL,
        Instr::Jump(t) | Instr::Ifz(t) | Instr::Block(t, _, _) => is_start(marks, t),
        Instr::Try(handler) => is_start(marks, handler),
        Instr::Input(i) => i < inputs,
        _ => true,
    }
}

// Every instruction is known, is whole, and has its operands within their limits. By `while`, as in `mark_starts`.
fn instrs_ok(code: &[u8], marks: &[bool; CODE], labels: usize, inputs: usize) -> bool
    requires { (length code.now < 2 ^ 16) × Marks marks.now (starts code.now) }
    ensures { result ≡ all (instr_ok labels inputs code.now) (starts code.now) }
{
    let mut i: usize = 0;
    while i < code.len() {
        if !decode::known(code[i]) {
            return false;
        }
        let Decoded { instr, after } = decode::decode(code, i);
        if code.len() < after {
            return false;
        }
        if !operands_ok(instr, marks, labels, inputs) {
            return false;
        }
        i = after;
    }
    true
}

// END, JUMP or THROW.
#[tactic(auto, unfolding(crate::specs::Sweep::may_be_last))]
fn may_be_last(op: u8) -> bool
    ensures { result ≡ may_be_last op }
{
    matches!(op, opcodes::END | opcodes::JUMP | opcodes::THROW)
}

// Check 7: the sweep that marks the starts, then the instructions against the marks, so that the time is linear. It asks that the
// code is short, as do those above and the quote's, each by what it needs: no type says it of bytes that are no script's yet.
#[tactic(auto, unfolding(crate::specs::Sweep::code_ok))]
pub fn code_ok(code: &[u8], labels: usize, inputs: usize) -> bool
    requires { length code.now ≤ 4096 }
    ensures { result ≡ code_ok labels inputs code.now }
{
    let mut marks = [false; CODE];
    let last = mark_starts(code, &mut marks);
    instrs_ok(code, &marks, labels, inputs) && may_be_last(decode::byte_at(code, last))
}
