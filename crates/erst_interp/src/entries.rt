//! The entries of a table: one instruction each.

ghost use Rattle.std.specs.Prelude.{◌≡◌, ◌≤◌, length};
ghost use Rattle.erst_interp.specs.Entries.{instruction_of, register_at, entry_of};

use board_core::Reg;
use erst_store::actions::{ACTION_ADDRESS, VALUE_ADDRESS};
use ras_base::is_set;
use ras_base::little_endian::u64_at;

/// The bytes of an entry.
pub const ENTRY_LENGTH: usize = 32;

// The address space of registers in system memory, and the bits of a register.
const SYSTEM_MEMORY: u8 = 0;

const REGISTER_BITS: u8 = 64;

/// The serialization instructions (ACPI 6.5, section 18.5.1.2), in the order of their numbers.
#[derive(Clone, Copy, Debug, PartialEq, Eq)]
pub enum Instruction {
    ReadRegister,
    ReadRegisterValue,
    WriteRegister,
    WriteRegisterValue,
    Noop,
    LoadVar1,
    LoadVar2,
    StoreVar1,
    Add,
    Subtract,
    AddValue,
    SubtractValue,
    Stall,
    StallWhileTrue,
    SkipNextInstructionIfTrue,
    Goto,
    SetSrcAddressBase,
    SetDstAddressBase,
    MoveData,
    /// A number that no instruction has.
    Unknown,
}

/// One entry of a table, with its register, its flags, its value and its mask.
#[derive(Clone, Copy, Debug, PartialEq, Eq)]
pub struct InstructionEntry {
    /// The number of the action to whose list the entry belongs.
    pub action: u8,
    pub instruction: Instruction,
    /// Whether a write keeps the register's other bits.
    pub preserves: bool,
    /// The register, or `None` if it isn't usable: it has to be in address space 0 at the address
    /// of Action or Value, with a bit offset below 64.
    pub register: Option<Reg>,
    /// The lowest bit of the register's field.
    pub offset: u8,
    pub value: u64,
    pub mask: u64,
}

impl Instruction {
    // Returns the instruction with this number.
    fn of(number: u8) -> Instruction
        ensures { result ≡ instruction_of number }
    {
        match number {
            0 => Instruction::ReadRegister,
            1 => Instruction::ReadRegisterValue,
            2 => Instruction::WriteRegister,
            3 => Instruction::WriteRegisterValue,
            4 => Instruction::Noop,
            5 => Instruction::LoadVar1,
            6 => Instruction::LoadVar2,
            7 => Instruction::StoreVar1,
            8 => Instruction::Add,
            9 => Instruction::Subtract,
            10 => Instruction::AddValue,
            11 => Instruction::SubtractValue,
            12 => Instruction::Stall,
            13 => Instruction::StallWhileTrue,
            14 => Instruction::SkipNextInstructionIfTrue,
            15 => Instruction::Goto,
            16 => Instruction::SetSrcAddressBase,
            17 => Instruction::SetDstAddressBase,
            18 => Instruction::MoveData,
            _ => Instruction::Unknown,
        }
    }
}

// Returns the register at an address, if the address space and the bit offset are usable.
fn register_at(space: u8, offset: u8, address: u64) -> Option<Reg>
    ensures { result ≡ register_at space offset address }
{
    if space != SYSTEM_MEMORY || offset >= REGISTER_BITS {
        return None;
    }
    match address {
        ACTION_ADDRESS => Some(Reg::Action),
        VALUE_ADDRESS => Some(Reg::Value),
        _ => None,
    }
}

// Returns the entry at the front of bytes.
pub(crate) fn entry_at(bytes: &[u8]) -> InstructionEntry
    requires { ENTRY_LENGTH ≤ length bytes.now }
    ensures { result ≡ entry_of bytes.now }
{
    InstructionEntry {
        action: bytes[0],
        instruction: Instruction::of(bytes[1]),
        preserves: is_set(0, bytes[2] as u64),
        register: register_at(bytes[4], bytes[6], u64_at(bytes, 8)),
        offset: bytes[6],
        value: u64_at(bytes, 16),
        mask: u64_at(bytes, 24),
    }
}
