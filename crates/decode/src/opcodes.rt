// The opcodes, 00 to 1D. Bytes and no enum: what is promised of lengths and of instructions is promised of every byte.

pub const END: u8 = 0x00;

pub const PUSH: u8 = 0x01;

pub const LAB: u8 = 0x02;

pub const GET: u8 = 0x03;

pub const SET: u8 = 0x04;

pub const POP: u8 = 0x05;

pub const ADD: u8 = 0x06;

pub const SUB: u8 = 0x07;

pub const LESS: u8 = 0x08;

pub const SAME: u8 = 0x09;

pub const JUMP: u8 = 0x0A;

pub const IFZ: u8 = 0x0B;

pub const CUR: u8 = 0x0C;

pub const CLR: u8 = 0x0D;

pub const RAISE: u8 = 0x0E;

pub const LOWER: u8 = 0x0F;

pub const FLOWS: u8 = 0x10;

pub const JOIN: u8 = 0x11;

pub const MEET: u8 = 0x12;

pub const SEAL: u8 = 0x13;

pub const OPEN: u8 = 0x14;

pub const LABOF: u8 = 0x15;

pub const NEW: u8 = 0x16;

pub const READ: u8 = 0x17;

pub const WRITE: u8 = 0x18;

pub const BLOCK: u8 = 0x19;

pub const TRY: u8 = 0x1A;

pub const DONE: u8 = 0x1B;

pub const THROW: u8 = 0x1C;

pub const INPUT: u8 = 0x1D;
