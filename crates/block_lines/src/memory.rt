//! What the kernel prints of a memory error.

ghost use Rattle.std.specs.Prelude.{◌≡◌};
ghost use Rattle.block_lines.specs.Reports.{blank_error, error_with};

/// Where an error is, in the firmware's numbers, each of which may be unknown.
#[derive(Clone, Copy, Debug, PartialEq, Eq)]
pub struct ErrorLocation {
    /// The node.
    pub node: Option<u16>,
    /// The card.
    pub card: Option<u16>,
    /// The module.
    pub module: Option<u16>,
}

/// A memory error, of which the firmware may leave out everything but the severity.
#[derive(Clone, Copy, Debug, PartialEq, Eq)]
pub struct MemoryError {
    /// How severe the error is: 0 recoverable, 1 fatal, 2 corrected, 3 informational.
    pub severity: u32,
    /// The physical address.
    pub physical: Option<u64>,
    /// Which bits of the address are valid.
    pub mask: Option<u64>,
    /// Where the error is.
    pub location: ErrorLocation,
    /// The type of error.
    pub kind: Option<u8>,
}

/// What a line of a memory section says.
#[derive(Clone, Copy, Debug, PartialEq, Eq)]
pub(crate) enum MemoryField {
    Physical(u64),
    Mask(u64),
    At(ErrorLocation),
    Kind(u8),
}

impl MemoryError {
    // Returns an error of which only the severity is known.
    pub(crate) fn blank(severity: u32) -> MemoryError
        ensures { result ≡ blank_error severity }
    {
        MemoryError {
            severity,
            physical: None,
            mask: None,
            location: ErrorLocation {
                node: None,
                card: None,
                module: None,
            },
            kind: None,
        }
    }

    // Returns the error with what a line says of it.
    pub(crate) fn with(self, field: MemoryField) -> MemoryError
        ensures { result ≡ error_with self field }
    {
        match field {
            MemoryField::Physical(address) => MemoryError {
                physical: Some(address),
                ..self
            },
            MemoryField::Mask(mask) => MemoryError {
                mask: Some(mask),
                ..self
            },
            MemoryField::At(location) => MemoryError { location, ..self },
            MemoryField::Kind(kind) => MemoryError {
                kind: Some(kind),
                ..self
            },
        }
    }
}
