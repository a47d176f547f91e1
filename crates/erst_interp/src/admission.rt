//! Which tables are admitted: those in which each list does its action, whatever the device.

ghost use Rattle.std.specs.Prelude.{◌≡◌, ◌↔◌, ◌≤◌, length, IsTrue};
ghost use Rattle.erst_interp.specs.Admission.{takes_input, gives_answer, input_bits, answer_bits, is_action, is_value, is_constant, holds_bits, is_idle, is_whole, is_act, is_input, is_free, is_read, is_answer, IsAdmitted, IsAdmittedTable};
ghost use Rattle.erst_interp.specs.Walk.{first_awaited, awaited_after, next_awaited, walks, is_admitted};

use crate::entries::{Instruction, InstructionEntry};
use crate::run::MOST_TURNS;
use crate::table::Table;
use board_core::Reg;
use erst_store::actions::{
    CHECK_BUSY_STATUS, EXECUTE_OPERATION, GET_COMMAND_STATUS, GET_RECORD_COUNT,
    GET_RECORD_IDENTIFIER, SET_RECORD_IDENTIFIER, SET_RECORD_OFFSET,
};

// How many actions an admitted table has to do: those from 0 on.
const ACTIONS: u8 = 11;

// What a list still has to contain besides idle entries.
#[derive(Clone, Copy)]
pub(crate) enum Awaited {
    /// The input's write, and then the action's.
    Input,
    /// The action's write.
    Action,
    /// The read of the result, as the last entry.
    Answer,
    /// Nothing more.
    Rest,
    /// No entry at all.
    End,
}

/// Returns whether a table is admitted: each list of the actions 0 to 10 has at most `MOST_TURNS`
/// entries, and these:
///
/// - one entry that writes the action's number to Action, by a WRITE_REGISTER_VALUE of the whole
///   register;
/// - for SET_RECORD_OFFSET and SET_RECORD_IDENTIFIER before it one that writes the value to Value,
///   by a WRITE_REGISTER of the whole register, whose mask has the low 32 bits or all;
/// - for EXECUTE_OPERATION before it any that write a number of their own to Value, by a
///   WRITE_REGISTER_VALUE without preserve;
/// - for the actions that return something a last one that reads Value from bit 0, whose mask has
///   the bits of the result; if that is one bit it may be compared with 1;
/// - besides these only NOOP, STALL, ADD and SUBTRACT, and LOAD_VAR1 and LOAD_VAR2 of a good
///   register.
pub fn admits(table: &Table) -> bool
    ensures admitted { IsTrue result ↔ IsAdmittedTable table.now }
    ensures test { result ≡ is_admitted table.now }
{
    for action in 0..ACTIONS {
        if !admits_list(u64::from(action), table.list(action)) {
            return false;
        }
    }
    true
}

// Returns whether a list of an action is admitted.
fn admits_list(action: u64, list: &[InstructionEntry]) -> bool
    ensures { IsTrue result ↔ IsAdmitted action list.now }
{
    list.len() <= MOST_TURNS as usize && walks(action, list)
}

// Returns whether a list of an action has the layout of an admitted list.
fn walks(action: u64, list: &[InstructionEntry]) -> bool
    ensures { result ≡ walks action (first_awaited action) list.now }
{
    let mut awaited = first_awaited(action);
    for entry in list {
        match next_awaited(action, awaited, entry) {
            Some(next) => awaited = next,
            None => return false,
        }
    }
    matches!(awaited, Awaited::Rest | Awaited::End)
}

// Returns what a list of an action has to contain first.
fn first_awaited(action: u64) -> Awaited
    ensures { result ≡ first_awaited action }
{
    if takes_input(action) {
        Awaited::Input
    } else {
        Awaited::Action
    }
}

// Returns what a list has to contain after an entry, or `None` if the entry isn't allowed here.
fn next_awaited(action: u64, awaited: Awaited, entry: &InstructionEntry) -> Option<Awaited>
    ensures { result ≡ next_awaited action awaited entry.now }
{
    if entry.is_idle() {
        return if matches!(awaited, Awaited::End) {
            None
        } else {
            Some(awaited)
        };
    }
    match awaited {
        Awaited::Input if entry.is_input(action) => Some(Awaited::Action),
        Awaited::Action if entry.is_act(action) => Some(awaited_after(action)),
        Awaited::Action if entry.is_free(action) => Some(Awaited::Action),
        Awaited::Answer if entry.is_answer(action) => Some(Awaited::End),
        _ => None,
    }
}

// Returns what a list has to contain after the action's write.
fn awaited_after(action: u64) -> Awaited
    ensures { result ≡ awaited_after action }
{
    if gives_answer(action) {
        Awaited::Answer
    } else {
        Awaited::Rest
    }
}

// Returns whether an action takes the input.
fn takes_input(action: u64) -> bool
    ensures { result ≡ takes_input action }
{
    action == SET_RECORD_OFFSET || action == SET_RECORD_IDENTIFIER
}

// Returns whether an action returns something.
fn gives_answer(action: u64) -> bool
    ensures { result ≡ gives_answer action }
{
    action == CHECK_BUSY_STATUS
        || action == GET_COMMAND_STATUS
        || action == GET_RECORD_IDENTIFIER
        || action == GET_RECORD_COUNT
}

// Returns the bits that the mask of an input's write has to have.
fn input_bits(action: u64) -> u64
    ensures { result ≡ input_bits action }
{
    if action == SET_RECORD_OFFSET {
        u64::from(u32::MAX)
    } else {
        u64::MAX
    }
}

// Returns the bits that the mask of a result's read has to have.
fn answer_bits(action: u64) -> u64
    ensures { result ≡ answer_bits action }
{
    match action {
        CHECK_BUSY_STATUS => 1,
        GET_COMMAND_STATUS => u64::from(u8::MAX),
        GET_RECORD_IDENTIFIER => u64::MAX,
        _ => u64::from(u32::MAX),
    }
}

impl InstructionEntry {
    // Returns whether the entry changes neither the device nor the value.
    fn is_idle(&self) -> bool
        ensures { result ≡ is_idle self.now }
    {
        match self.instruction {
            Instruction::Noop | Instruction::Stall | Instruction::Add | Instruction::Subtract => {
                true
            }
            Instruction::LoadVar1 | Instruction::LoadVar2 => self.register.is_some(),
            _ => false,
        }
    }

    // Returns whether the entry's field is the whole register, and a write preserves none of its
    // bits.
    fn is_whole(&self) -> bool
        ensures { result ≡ is_whole self.now }
    {
        self.offset == 0 && !self.preserves
    }

    // Returns whether the entry's mask has these bits.
    fn holds(&self, bits: u64) -> bool
        ensures { result ≡ holds_bits bits self.now.mask }
    {
        self.mask & bits == bits
    }

    // Returns whether the entry uses the register Value.
    fn is_of_value(&self) -> bool
        ensures { result ≡ is_value self.now.register }
    {
        matches!(self.register, Some(Reg::Value))
    }

    // Returns whether the entry writes its own number to a register.
    fn writes_constant(&self) -> bool
        ensures { result ≡ is_constant self.now.instruction }
    {
        matches!(self.instruction, Instruction::WriteRegisterValue)
    }

    // Returns whether the entry writes the number of an action to Action.
    fn is_act(&self, action: u64) -> bool
        ensures { result ≡ is_act action self.now }
    {
        self.writes_constant()
            && matches!(self.register, Some(Reg::Action))
            && self.is_whole()
            && self.value & self.mask == action
    }

    // Returns whether the entry writes the input of an action to Value.
    fn is_input(&self, action: u64) -> bool
        ensures { result ≡ is_input action self.now }
    {
        matches!(self.instruction, Instruction::WriteRegister)
            && self.is_of_value()
            && self.is_whole()
            && self.holds(input_bits(action))
    }

    // Returns whether the entry writes something that EXECUTE_OPERATION ignores.
    fn is_free(&self, action: u64) -> bool
        ensures { result ≡ is_free action self.now }
    {
        action == EXECUTE_OPERATION
            && self.writes_constant()
            && self.is_of_value()
            && !self.preserves
    }

    // Returns whether the entry reads the result of an action unchanged.
    fn reads_answer(&self, action: u64) -> bool
        ensures { result ≡ is_read action self.now.value self.now.instruction }
    {
        match self.instruction {
            Instruction::ReadRegister => true,
            Instruction::ReadRegisterValue => action == CHECK_BUSY_STATUS && self.value == 1,
            _ => false,
        }
    }

    // Returns whether the entry reads the result of an action from Value.
    fn is_answer(&self, action: u64) -> bool
        ensures { result ≡ is_answer action self.now }
    {
        self.reads_answer(action)
            && self.is_of_value()
            && self.offset == 0
            && self.holds(answer_bits(action))
    }
}
