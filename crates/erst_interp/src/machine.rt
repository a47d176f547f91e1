//! The variables of a run, and what instructions do with the variables only.

ghost use Rattle.std.specs.Prelude.{◌≡◌, ◌+◌, ◌*◌, ◌/◌, ◌%◌, ◌<◌, ◌^◌};
ghost use Rattle.erst_interp.specs.Machine.{new_variables, next, field_of, alone, with_field, in_place};
ghost use Rattle.erst_interp.specs.Steps.Parts.{work_of, computed, taken, given, changed};

use crate::entries::{Instruction, InstructionEntry};

// The variables of a run: the index of the next entry in the list, the value, two variables, and
// the bases of the bytes that are moved.
#[derive(Clone, Copy)]
pub(crate) struct Variables {
    pub(crate) index: u64,
    pub(crate) value: u64,
    pub(crate) var1: u64,
    pub(crate) var2: u64,
    pub(crate) src: u64,
    pub(crate) dst: u64,
}

// What kind of instruction an entry has.
#[derive(Clone, Copy)]
pub(crate) enum Work {
    /// No known instruction.
    Unknown,
    /// The instruction uses no register.
    Computes,
    /// The instruction uses the entry's register.
    Uses(Use),
}

// How an instruction uses the register.
#[derive(Clone, Copy)]
pub(crate) enum Use {
    /// The field is read.
    Reads,
    /// The field is written.
    Writes,
    /// The field is read, and then another number is written.
    Changes,
    /// The field is an offset of bytes that are moved.
    Moves,
}

impl Instruction {
    // Returns the kind of the instruction.
    pub(crate) fn work(self) -> Work
        ensures { result ≡ work_of self }
    {
        match self {
            Instruction::Unknown => Work::Unknown,
            Instruction::Noop
            | Instruction::Stall
            | Instruction::Add
            | Instruction::Subtract
            | Instruction::Goto => Work::Computes,
            Instruction::WriteRegister | Instruction::WriteRegisterValue | Instruction::StoreVar1 =>
                Work::Uses(Use::Writes),
            Instruction::AddValue | Instruction::SubtractValue => Work::Uses(Use::Changes),
            Instruction::MoveData => Work::Uses(Use::Moves),
            Instruction::ReadRegister
            | Instruction::ReadRegisterValue
            | Instruction::LoadVar1
            | Instruction::LoadVar2
            | Instruction::StallWhileTrue
            | Instruction::SkipNextInstructionIfTrue
            | Instruction::SetSrcAddressBase
            | Instruction::SetDstAddressBase => Work::Uses(Use::Reads),
        }
    }
}

impl Variables {
    // Returns the variables at the start of a run with this input.
    pub(crate) fn new(input: u64) -> Variables
        ensures { result ≡ new_variables input }
    {
        Variables {
            index: 0,
            value: input,
            var1: 0,
            var2: 0,
            src: 0,
            dst: 0,
        }
    }

    // Returns the variables before the next entry.
    pub(crate) fn next(mut self) -> Variables
        requires { self.index + 2 < 2 ^ 64 }
        ensures { result ≡ next self }
    {
        self.index += 1;
        self
    }

    // Returns the variables after an instruction that uses no register.
    pub(crate) fn computed(
        mut self,
        instruction: Instruction,
        entry: &InstructionEntry,
    ) -> Variables
        requires { self.index + 2 < 2 ^ 64 }
        ensures { result ≡ computed instruction entry.now self }
    {
        match instruction {
            Instruction::Goto => self.index = entry.value,
            Instruction::Add => {
                self.var1 = self.var1.wrapping_add(self.var2);
                self.index += 1;
            }
            Instruction::Subtract => {
                self.var1 = self.var2.wrapping_sub(self.var1);
                self.index += 1;
            }
            _ => self.index += 1,
        }
        self
    }

    // Returns the variables after an instruction that read this number.
    pub(crate) fn taken(
        mut self,
        instruction: Instruction,
        entry: &InstructionEntry,
        number: u64,
    ) -> Variables
        requires { self.index + 2 < 2 ^ 64 }
        ensures { result ≡ taken instruction entry.now number self }
    {
        let equals = number == entry.value;
        match instruction {
            Instruction::StallWhileTrue if equals => return self,
            Instruction::SkipNextInstructionIfTrue if equals => self.index += 1,
            Instruction::ReadRegister => self.value = number,
            Instruction::ReadRegisterValue => self.value = u64::from(equals),
            Instruction::LoadVar1 => self.var1 = number,
            Instruction::LoadVar2 => self.var2 = number,
            Instruction::SetSrcAddressBase => self.src = number,
            Instruction::SetDstAddressBase => self.dst = number,
            _ => {}
        }
        self.index += 1;
        self
    }

    // Returns the number that an instruction writes.
    pub(crate) fn given(self, instruction: Instruction, entry: &InstructionEntry) -> u64
        ensures { result ≡ given instruction entry.now self }
    {
        match instruction {
            Instruction::WriteRegisterValue => entry.value,
            Instruction::StoreVar1 => self.var1,
            _ => self.value,
        }
    }
}

impl InstructionEntry {
    // Returns the number that an instruction writes after it read one.
    pub(crate) fn changed(&self, instruction: Instruction, number: u64) -> u64
        ensures { result ≡ changed instruction self.now number }
    {
        match instruction {
            Instruction::SubtractValue => number.wrapping_sub(self.value),
            _ => number.wrapping_add(self.value),
        }
    }

    // Returns the number in the entry's field, if the register has this number.
    pub(crate) fn field_of(&self, number: u64) -> u64
        ensures { result ≡ field_of self.now number }
    {
        shifted_down(number, self.offset) & self.mask
    }

    // Returns a number shifted to the position of the field.
    fn in_place(&self, number: u64) -> u64
        ensures { result ≡ in_place self.now number }
    {
        shifted_up(number, self.offset)
    }

    // Returns a register's number with this number in the field, and all other bits 0.
    pub(crate) fn alone(&self, number: u64) -> u64
        ensures { result ≡ alone self.now number }
    {
        self.in_place(number & self.mask)
    }

    // Returns a register's number with this number in the field, and all other bits as in `before`.
    pub(crate) fn with_field(&self, number: u64, before: u64) -> u64
        ensures { result ≡ with_field self.now number before }
    {
        self.alone(number) | before & !self.in_place(self.mask)
    }
}

// Returns a number shifted right by `bits`, maybe by all.
#[tactic(auto, using(crate::proofs::ShiftLemmas::gone_down))]
fn shifted_down(number: u64, bits: u8) -> u64
    ensures { result ≡ number / 2 ^ bits }
{
    if bits < 64 { number >> bits } else { 0 }
}

// Returns a number shifted left by `bits`, maybe by all. Bits beyond 64 are dropped.
#[tactic(auto, using(crate::proofs::ShiftLemmas::gone_up))]
fn shifted_up(number: u64, bits: u8) -> u64
    ensures { result ≡ number * 2 ^ bits % 2 ^ 64 }
{
    if bits < 64 { number << bits } else { 0 }
}
