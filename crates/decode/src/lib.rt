// Instruction decoding, for the file's checks and for the machine.
#![tactic(auto)]

ghost use Rattle.std.specs.Prelude.{◌≡◌, ◌+◌, ◌<◌, ◌^◌, length, get_or};
ghost use Rattle.model.specs.declared.Instr.TheVariants.{End, Block};
ghost use Rattle.model.specs.Decoding.{byte, u16, u32, known, size, instrs, fetch, after};

pub mod opcodes;

use model::Instr;

#[derive(Clone, Copy)]
pub struct Decoded {
    pub instr: Instr,
    // where the next instruction starts
    pub after: usize,
}

// Past the end stands 0.
pub fn byte_at(s: &[u8], i: usize) -> u8
    ensures { result ≡ byte s.now i }
{
    s.get(i).copied().unwrap_or(0)
}

#[tactic(auto, unfolding(model::specs::Decoding::u16))]
pub fn u16_at(s: &[u8], i: usize) -> u16
    requires { i < 2 ^ 40 }
    ensures { result ≡ u16 s.now i }
{
    let low = u16::from(byte_at(s, i));
    let high = u16::from(byte_at(s, i + 1));
    low + 256 * high
}

#[tactic(auto, unfolding(model::specs::Decoding::u32))]
pub fn u32_at(s: &[u8], i: usize) -> u32
    requires { i < 2 ^ 32 }
    ensures { result ≡ u32 s.now i }
{
    let low = u32::from(u16_at(s, i));
    let high = u32::from(u16_at(s, i + 2));
    low + 65536 * high
}

#[tactic(auto, unfolding(model::specs::Decoding::known))]
pub fn known(op: u8) -> bool
    ensures { result ≡ known op }
{
    op <= opcodes::INPUT
}

// The bytes of an instruction, by its opcode: the only place where the lengths stand. A match with an arm for each: with a
// table, or with alternatives in one arm, the sweep of a script's code takes 1.1 to 1.7 times as long.
#[tactic(auto, unfolding(model::specs::Decoding::size, model::specs::Decoding::operand_bytes))]
pub fn size_of(op: u8) -> usize
    ensures { result ≡ size op }
{
    match op {
        opcodes::PUSH => 5,
        opcodes::LAB => 2,
        opcodes::GET => 2,
        opcodes::SET => 2,
        opcodes::JUMP => 3,
        opcodes::IFZ => 3,
        opcodes::BLOCK => 6,
        opcodes::TRY => 3,
        opcodes::INPUT => 2,
        _ => 1,
    }
}

// An operand of one byte, and one of two, as an index.
pub fn index_at(s: &[u8], i: usize) -> usize
    ensures { result ≡ byte s.now i }
{
    usize::from(byte_at(s, i))
}

pub fn target_at(s: &[u8], i: usize) -> usize
    requires { i < 2 ^ 40 }
    ensures { result ≡ u16 s.now i }
{
    usize::from(u16_at(s, i))
}

// A BLOCK whose operands begin at i: target, steps, places.
fn block_at(code: &[u8], i: usize) -> Instr
    requires { i < 2 ^ 32 }
    ensures { result ≡ Block (u16 code.now i) (u16 code.now (i + 2)) (byte code.now (i + 4)) }
{
    Instr::Block(
        target_at(code, i),
        target_at(code, i + 2),
        index_at(code, i + 4),
    )
}

// The instruction with opcode `op` whose operands stand at `i`. Inlined, as `decode` is.
#[inline(always)]
#[tactic(auto, unfolding(model::specs::Decoding::instrs))]
fn instr_at(code: &[u8], op: u8, i: usize) -> Instr
    requires { i < 2 ^ 32 }
    ensures { result ≡ get_or (instrs code.now i) op End }
{
    match op {
        opcodes::END => Instr::End,
        opcodes::PUSH => Instr::Push(u32_at(code, i)),
        opcodes::LAB => Instr::Lab(index_at(code, i)),
        opcodes::GET => Instr::Get(index_at(code, i)),
        opcodes::SET => Instr::Set(index_at(code, i)),
        opcodes::POP => Instr::Pop,
        opcodes::ADD => Instr::Add,
        opcodes::SUB => Instr::Sub,
        opcodes::LESS => Instr::Less,
        opcodes::SAME => Instr::Same,
        opcodes::JUMP => Instr::Jump(target_at(code, i)),
        opcodes::IFZ => Instr::Ifz(target_at(code, i)),
        opcodes::CUR => Instr::Cur,
        opcodes::CLR => Instr::Clr,
        opcodes::RAISE => Instr::Raise,
        opcodes::LOWER => Instr::Lower,
        opcodes::FLOWS => Instr::Flows,
        opcodes::JOIN => Instr::Join,
        opcodes::MEET => Instr::Meet,
        opcodes::SEAL => Instr::Seal,
        opcodes::OPEN => Instr::Open,
        opcodes::LABOF => Instr::Labof,
        opcodes::NEW => Instr::New,
        opcodes::READ => Instr::Read,
        opcodes::WRITE => Instr::Write,
        opcodes::BLOCK => block_at(code, i),
        opcodes::TRY => Instr::Try(target_at(code, i)),
        opcodes::DONE => Instr::Done,
        opcodes::THROW => Instr::Throw,
        opcodes::INPUT => Instr::Input(index_at(code, i)),
        _ => Instr::End,
    }
}

// The instruction at a place of the code. Inlined, though it is called at three places: as a call it takes an arithmetic loop
// 1.14 times the time.
#[inline(always)]
#[tactic(auto, unfolding(model::specs::Decoding::fetch, model::specs::Decoding::after))]
pub fn decode(code: &[u8], pc: usize) -> Decoded
    requires { length code.now < 2 ^ 16 }
    ensures { result ≡ record { instr = fetch code.now pc; after = after code.now pc } }
{
    let Some(&op) = code.get(pc) else {
        return Decoded {
            instr: Instr::End,
            after: pc,
        };
    };
    Decoded {
        instr: instr_at(code, op, pc + 1),
        after: pc + size_of(op),
    }
}
