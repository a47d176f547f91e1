//! Which DIMM the kernel names, and the line `range` that is printed for it.

ghost use Rattle.std.specs.Prelude.{◌≡◌, ◌++◌, ◌∷◌, [], IfOk, OnOk, length, nat_lt};
ghost use Rattle.std.specs.Option.{option_copied, option_map};
ghost use Rattle.std.specs.Str.{bytes_eq};
ghost use Rattle.log_lines.specs.Dimms.{after_part, block_at, dimms_begun, dimms_last, heard, in_heading, is_alone, listens};
ghost use Rattle.log_lines.specs.Dimms.{part_passed, part_text, range_line, range_text, range_told, ranged_with, slot_called};
ghost use Rattle.log_lines.specs.Dimms.{slot_in, slot_line, stays_held, takes_range, whole_part, with_whole, with_slot};
ghost use Rattle.log_lines.specs.Slots.{SlotLine};

use crate::comments::exceeds_call;
use bank_lines::cut;
use dimm_topology::{Label, LabelRefused};
use ras_base::NoMemory;
use std::alloc::Global;
use std::marker::Model;

/// The most slots of the head of an input.
pub const MOST_SLOTS: usize = 1_024;

/// The most ranges that a filter prints.
pub const MOST_RANGES: usize = 1_500;

/// The most bytes of a text that waits. The text of a machine check is far shorter.
pub const MOST_HELD: usize = 512;

// A slot of the machine.
#[derive(Drop)]
pub(crate) struct Slot {
    // the name of the slot's module in the script
    name: Label,
    // what the kernel calls the DIMM in the slot
    label: Vec<u8>,
}

impl Model for Slot {
    ghost use Rattle.log_lines.specs.Slots.{SlotLine};

    ghost Value = { SlotLine };

    ghost view = { λ s. record { name = s.name; label = s.label.items } };
}

/// A range for an error's address: it has the 64 bytes of the address's block.
#[derive(Clone, Copy, Debug)]
pub struct ToldRange {
    /// The name of the module that has the address.
    pub name: Label,
    /// The address that the kernel told.
    pub address: u64,
}

// What a filter knows of DIMMs.
#[derive(Drop)]
pub(crate) struct Dimms {
    // the slots in the head of the input
    slots: Vec<Slot>,
    // whether only lines of slots came so far
    heading: bool,
    // the blocks of 64 bytes that have a range
    ranged: Vec<u64>,
    // the text that waits
    held: Vec<u8>,
}

impl Model for Dimms {
    ghost use Rattle.log_lines.specs.Dimms.{DimmsState};

    ghost Value = { DimmsState };

    ghost view = { λ d. record {
      slots = d.slots.items;
      heading = d.heading;
      ranged = d.ranged.items;
      held = d.held.items;
    } };
}

impl Dimms {
    // Returns what a filter knows before its first line.
    pub(crate) fn new(alloc: Global) -> Dimms
        ensures { result ≡ dimms_begun }
    {
        Dimms {
            slots: Vec::new(alloc),
            heading: true,
            ranged: Vec::new(alloc),
            held: Vec::new(alloc),
        }
    }

    // Takes a line, which may belong to the heading.
    pub(crate) fn hear(&mut self, alloc: Global, line: &[u8]) -> Result<(), NoMemory>
        ensures { OnOk result (self.new ≡ heard self.old (slot_line line.now)) }
    {
        if self.heading {
            self.take_heading(slot_line(alloc, line)?)
        } else {
            Ok(())
        }
    }

    // Takes a line of the heading, or the first line behind it.
    fn take_heading(&mut self, slot: Option<Slot>) -> Result<(), NoMemory>
        ensures { OnOk result (self.new ≡ in_heading self.old slot) }
    {
        match slot {
            Some(slot) => {
                if self.slots.len() < MOST_SLOTS {
                    self.slots.push(slot)?;
                }
            }
            None => self.heading = false,
        }
        Ok(())
    }

    // Takes a line that is too long, which ends the heading.
    pub(crate) fn end_heading(&mut self)
        ensures { self.new ≡ heard self.old None }
    {
        self.heading = false;
    }

    // Returns whether the heading is over, and had slots.
    pub(crate) fn listens(&self) -> bool
        ensures { result ≡ listens self.now }
    {
        !self.heading && !self.slots.is_empty()
    }

    // Returns the first slot that the kernel calls so.
    fn slot_called(&self, label: &[u8]) -> Option<Label>
        ensures { result ≡ option_map (λ (slot : SlotLine). slot.name)
            (slot_called self.now.slots label.now) }
    {
        for slot in &self.slots {
            if slot.label.as_slice() == label {
                return Some(slot.name);
            }
        }
        None
    }

    // Returns whether an address may get a range.
    fn takes_range(&self, address: u64) -> bool
        ensures { result ≡ takes_range self.now address }
    {
        self.listens()
            && self.ranged.len() < MOST_RANGES
            && !self.ranged.contains(&block_at(address))
    }

    // Returns the range for an address and what the kernel calls the DIMM there.
    fn range_told(&self, told: Option<(u64, &[u8])>) -> Option<ToldRange>
        ensures { result
            ≡ range_told self.now (option_map (λ told. (told.0, told.1.now)) told.entry) }
    {
        let (address, label) = told?;
        if !self.takes_range(address) {
            return None;
        }
        let name = self.slot_called(label)?;
        Some(ToldRange { name, address })
    }

    // Returns whether a text waits.
    fn stays_held(&self, said: &[u8], waits: bool) -> bool
        ensures { result ≡ stays_held self.now said.now waits }
    {
        waits && self.listens() && said.len() <= MOST_HELD
    }

    // Returns whether a line's text is printed alone: no text waits, no line told a DIMM, and the text
    // doesn't wait.
    fn is_alone(&self, told: Option<(u64, &[u8])>, said: &[u8], waits: bool) -> bool
        ensures { result ≡ is_alone self.now
            (option_map (λ told. (told.0, told.1.now)) told.entry) said.now waits }
    {
        self.held.is_empty() && told.is_none() && !self.stays_held(said, waits)
    }

    // Appends the range of what a line told, the text that waits, and the text of the line, unless it
    // waits from now on.
    pub(crate) fn pass(
        &mut self,
        alloc: Global,
        told: Option<(u64, &[u8])>,
        said: &[u8],
        waits: bool,
        text: &mut Vec<u8>,
    ) -> Result<(), NoMemory>
        ensures text { OnOk result (text.new.items ≡ text.old.items
            ++ part_text (part_passed self.old
            (option_map (λ told. (told.0, told.1.now)) told.entry) said.now waits)) }
        ensures after { OnOk result (self.new
            ≡ after_part self.old (option_map (λ told. (told.0, told.1.now)) told.entry) said.now
            waits) }
    {
        if self.is_alone(told, said, waits) {
            text.extend_from_slice(said)?;
            return Ok(());
        }
        let range = self.range_told(told);
        let held = self.stays_held(said, waits);
        let shown: &[u8] = if held { &[] } else { said };
        let mut full = Vec::new(alloc);
        push_range(alloc, &mut full, &range)?;
        full.extend_from_slice(&self.held)?;
        full.extend_from_slice(shown)?;
        if exceeds_call(&full) {
            text.extend_from_slice(said)?;
            return Ok(());
        }
        text.extend_from_slice(&full)?;
        self.keep(range, if held { said } else { &[] })
    }

    // Remembers a range, and the text that waits.
    fn keep(&mut self, range: Option<ToldRange>, held: &[u8]) -> Result<(), NoMemory>
        ensures { OnOk result (self.new
            ≡ record self.old { ranged = ranged_with self.old.ranged range; held = held.now }) }
    {
        if let Some(range) = range {
            self.ranged.push(block_at(range.address))?;
        }
        self.held.clear();
        self.held.extend_from_slice(held)?;
        Ok(())
    }

    // Appends what waits, and the last text.
    pub(crate) fn push_last(
        &self,
        alloc: Global,
        last: &[u8],
        text: &mut Vec<u8>,
    ) -> Result<(), NoMemory>
        ensures { OnOk result (text.new.items ≡ text.old.items ++ dimms_last self.now last.now) }
    {
        let mut full = Vec::new(alloc);
        full.extend_from_slice(&self.held)?;
        full.extend_from_slice(last)?;
        if exceeds_call(&full) {
            text.extend_from_slice(last)?;
        } else {
            text.extend_from_slice(&full)?;
        }
        Ok(())
    }
}

// Returns the slot that a line `# slot <name> <label>` describes.
fn slot_line(alloc: Global, line: &[u8]) -> Result<Option<Slot>, NoMemory>
    ensures { IfOk result (λ slot. slot ≡ slot_line line.now) }
{
    if line.starts_with(b"# slot ") {
        slot_in(alloc, &line[7..])
    } else {
        Ok(None)
    }
}

// Returns the slot of a name and a label.
fn slot_in(alloc: Global, text: &[u8]) -> Result<Option<Slot>, NoMemory>
    ensures { IfOk result (λ slot. slot ≡ slot_in text.now) }
{
    let (name, label) = cut(b' ', text);
    if label.is_empty() {
        return Ok(None);
    }
    match Label::new(alloc, name) {
        Ok(name) => {
            let mut bytes = Vec::new(alloc);
            bytes.extend_from_slice(label)?;
            Ok(Some(Slot { name, label: bytes }))
        }
        Err(LabelRefused::Bad) => Ok(None),
        Err(LabelRefused::NoMemory) => Err(NoMemory),
    }
}

// Returns the block of 64 bytes that has this address.
fn block_at(address: u64) -> u64
    ensures { result ≡ block_at address }
{
    address / 64
}

// Appends the line of a range, if there is one.
fn push_range(alloc: Global, text: &mut Vec<u8>, range: &Option<ToldRange>) -> Result<(), NoMemory>
    ensures { OnOk result (text.new.items ≡ text.old.items ++ range_text range.now) }
{
    match range {
        Some(range) => push_range_line(alloc, text, range),
        None => Ok(()),
    }
}

// Appends the line of a range.
fn push_range_line(alloc: Global, text: &mut Vec<u8>, range: &ToldRange) -> Result<(), NoMemory>
    ensures { OnOk result (text.new.items ≡ text.old.items ++ range_line range.now ++ 10 ∷ []) }
{
    let first = block_at(range.address) * 64;
    let last = first + 63;
    text.extend_from_slice(b"range ")?;
    text.extend_from_slice(range.name.bytes())?;
    let block = format!(in alloc; " {first:x} {last:x}\n")?;
    text.extend_from_slice(block.as_bytes())?;
    Ok(())
}
