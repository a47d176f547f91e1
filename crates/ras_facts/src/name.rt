//! What names a report.
ghost use Rattle.std.specs.Prelude.{◌≡◌};
ghost use Rattle.ras_facts.specs.Names.{boot_of, is_retired};

/// The name of a report. Two reports with one name are reports of one error, which is counted once.
#[derive(Clone, Copy, Debug, PartialEq, Eq, Hash)]
pub enum Name {
    /// An error in a machine-check bank: the boot in which it was found, the processor's number,
    /// the bank's number, and the processor's time-stamp counter when the error was logged.
    Bank {
        boot: u64,
        cpu: u16,
        bank: u8,
        tsc: u64,
    },
    /// A record of the record store, by its identifier. A store uses each identifier only once.
    Record {
        id: u64,
    },
    /// A generic error status block: the boot in which it was read, the identifier of its source in
    /// the table HEST, and its number among the blocks of that source and boot.
    Block {
        boot: u64,
        source: u16,
        number: u64,
    },
    /// The boot error region, as it was read in this boot.
    Boot {
        boot: u64,
    },
}

impl Name {
    /// Returns the boot in which the report was made. It is `None` for a record, which persists
    /// across boots.
    pub fn boot(&self) -> Option<u64>
        ensures { result ≡ boot_of self.now }
    {
        match self {
            Name::Bank { boot, .. } | Name::Block { boot, .. } | Name::Boot { boot } => Some(*boot),
            Name::Record { .. } => None,
        }
    }

    /// Returns whether the report's boot is below `floor`, and so retired. A record has no boot, so
    /// it is never retired.
    pub fn is_retired(&self, floor: u64) -> bool
        ensures { result ≡ is_retired floor self.now }
    {
        match self.boot() {
            Some(boot) => boot < floor,
            None => false,
        }
    }
}
