//! The reports of firmware, and their sections.

ghost use Rattle.std.specs.Prelude.{◌≡◌, ◌<◌, ◌≤◌, length, OnOk, Some, slice_get};
ghost use Rattle.std.specs.List.{list_any};
ghost use Rattle.cper_records.specs.Readable.{filled};
ghost use Rattle.cper_pcie.specs.Reports.{is_pcie};
ghost use Rattle.cper_pcie.specs.Steps.Filtering.{sections_in};

use crate::section::is_pcie;
use apei_sources::Block;
use cper_records::Record;
use cper_sections::Descriptor;
use ras_base::NoMemory;

/// The bytes that the record store returns for a record, and the most bytes of a record.
pub const STORED_LENGTH: usize = 16_384;

// The sections of a report.
#[derive(Drop)]
pub(crate) enum Sections<'a> {
    // The sections of a record.
    Record(Record<'a>),
    // The entries of a generic error status block.
    Block(Block<'a>),
}

impl<'a> Sections<'a> {
    // Returns how many sections there are.
    pub(crate) fn count(&self) -> usize
        ensures { result ≡ length (sections_in self.now) }
    {
        match self {
            Sections::Record(rec) => usize::from(rec.count()),
            Sections::Block(block) => block.count(),
        }
    }

    // Returns a section by its index.
    pub(crate) fn get(&self, i: usize) -> Descriptor<'a>
        requires { i < length (sections_in self.now) }
        ensures { slice_get (sections_in self.now) i ≡ Some (record {
          guid = result.guid;
          severity = result.severity;
          bytes = result.bytes.now;
        }) }
    {
        match self {
            Sections::Record(rec) => {
                // The count of a record's sections bounds the index.
                let _count = rec.count();
                rec.section(i as u16)
            }
            Sections::Block(block) => block.entry(i),
        }
    }

    // Returns whether there is a PCI Express section.
    pub(crate) fn has_pcie(&self) -> bool
        ensures { result ≡ list_any is_pcie (sections_in self.now) }
    {
        for i in 0..self.count() {
            if is_pcie(self.get(i).guid) {
                return true;
            }
        }
        false
    }
}

// Fills a buffer with a record as the store returns it, with zeros after its bytes. Allocates
// memory only for the first record.
pub(crate) fn fill(buffer: &mut Vec<u8>, bytes: &[u8]) -> Result<(), NoMemory>
    requires { length bytes.now ≤ STORED_LENGTH }
    ensures { OnOk result (buffer.new.items ≡ filled bytes.now) }
{
    buffer.clear();
    buffer.reserve(STORED_LENGTH)?;
    buffer.extend_from_slice(bytes)?;
    buffer.resize(STORED_LENGTH, 0)?;
    Ok(())
}
