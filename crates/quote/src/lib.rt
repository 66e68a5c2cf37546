// What a plain file's code may cost, worked out without running it: the largest steps and the largest places along any path
// through the code.
#![tactic(auto)]

ghost use Rattle.std.specs.Prelude.{◌≡◌, ◌+◌, ◌≤◌, ◌<◌, ◌^◌, max, length};
ghost use Rattle.model.specs.Decoding.{after};
ghost use Rattle.code_check.specs.Sweep.{starts};
ghost use Rattle.quote.specs.Quoting.{node_at, code_quote, quoting};
ghost use Rattle.quote.specs.Passes.{put, at, Small, weight_from, Checked};

use code_check::CODE;
use file_sections::Refusal;
use model::Instr;

// The largest steps and the largest places, each by itself.
#[derive(Clone, Copy)]
pub struct Figures {
    pub steps: u32,
    pub places: u32,
}

const NOTHING: Figures = Figures {
    steps: 0,
    places: 0,
};

// ---- one instruction

// The larger of each.
fn larger(a: Figures, b: Figures) -> Figures
    ensures steps { result.steps ≡ max a.steps b.steps }
    ensures places { result.places ≡ max a.places b.places }
{
    Figures {
        steps: a.steps.max(b.steps),
        places: a.places.max(b.places),
    }
}

// What an instruction costs by itself, and what may follow it.
fn charged(steps: u32, places: u32, onward: Figures) -> Figures
    requires small_steps { steps + onward.steps < 2 ^ 32 }
    requires small_places { places + onward.places < 2 ^ 32 }
    ensures { result ≡ record { steps = steps + onward.steps; places = places + onward.places } }
{
    Figures {
        steps: steps + onward.steps,
        places: places + onward.places,
    }
}

// The figures at a place. Behind the last stands nothing.
fn found(figures: &[Figures; CODE], i: usize) -> Figures
    ensures { result ≡ at figures.now i }
{
    figures.get(i).copied().unwrap_or(NOTHING)
}

// Weighs the instruction at `i` by the figures of the one behind it, `next`, and those that stand at later places. There are
// none where check 11 applies to it: it is a TRY, or its target is not ahead.
fn weigh(code: &[u8], i: usize, next: Figures, figures: &[Figures; CODE]) -> Option<Figures>
    requires short { length code.now ≤ 4096 }
    requires behind { next ≡ at figures.now (after code.now i) }
    requires small { Small figures.now }
    ensures { result ≡ weight_from figures.now (node_at code.now i) }
{
    match decode::decode(code, i).instr {
        Instr::End | Instr::Throw => Some(charged(1, 0, NOTHING)),
        Instr::Jump(t) => (i < t).then_some(charged(1, 0, found(figures, t))),
        Instr::Ifz(t) => (i < t).then_some(charged(1, 0, larger(found(figures, t), next))),
        Instr::Seal | Instr::New => Some(charged(1, 1, next)),
        Instr::Block(t, n, k) => (i < t).then_some(charged(1 + n as u32, k as u32 + 1, next)),
        Instr::Try(_) => None,
        _ => Some(charged(1, 0, next)),
    }
}

// ---- the code

// Lists the places where instructions start, in their order, and gives how many there are: an array and a count, as there is no
// heap. By a `while`, since each step is as long as an instruction.
fn list_starts(code: &[u8], list: &mut [u16; CODE]) -> usize
    requires { length code.now ≤ 4096 }
    ensures { (result ≡ length (starts code.now)) × (list.new ≡ put 0 (starts code.now) list.old) }
{
    let mut n: usize = 0;
    let mut i: usize = 0;
    while i < code.len() {
        list[n] = i as u16;
        n += 1;
        i += decode::size_of(code[i]);
    }
    n
}

// Check 11 and the figures of code that has passed check 7, by one pass from the last instruction to the first.
fn quote_code(code: &[u8]) -> Result<Figures, Refusal>
    requires { Checked code.now }
    ensures { result ≡ code_quote code.now }
{
    let mut list = [0u16; CODE];
    let n = list_starts(code, &mut list);
    let mut figures = [NOTHING; CODE];
    // Handed on: read back from the array, it waits for its store (1.29 times the time of a quote).
    let mut next = NOTHING;
    for &start in list[..n].iter().rev() {
        let i = usize::from(start);
        next = weigh(code, i, next, &figures).ok_or(Refusal::Ahead)?;
        figures[i] = next;
    }
    Ok(next)
}

// ---- the file

// The quote of a file of any bytes: the refusal of check 1 to 7 or 11 that stops it, or its figures.
pub fn quote_file(file: &[u8]) -> Result<Figures, Refusal>
    ensures { result ≡ quoting file.now }
{
    let mut labels = file_sections::no_labels();
    let header = script_file::load(file, &mut labels)?;
    quote_code(&file[header.code.offset..])
}
