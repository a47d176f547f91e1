//! What an MCA error code says.

ghost use Rattle.std.specs.Prelude.{◌≡◌, ◌≢◌, ◌↔◌, ◌≤◌, ◌<◌, ◌^◌, count_by};
ghost use Rattle.ras_base.specs.Bits.{bits};
ghost use Rattle.mca_codes.specs.Codes.{is_filtered, code_of_rows, rows_fitted, reading, fits_code, compound_rows, HasFieldsInRange, filter_of};

use ras_base::bits;

/// An MCA error code, bits 15:0 of IA32_MCi_STATUS, by its kind. The raw fields of a compound code
/// are named as in the manual, and `filter` is its bit 12.
#[derive(Clone, Copy, Debug, PartialEq, Eq)]
pub enum Code {
    /// No error was reported.
    NoError,
    /// An error that isn't classified into the manual's error classes.
    Unclassified,
    /// A parity error in the microcode ROM.
    MicrocodeRom,
    /// Another processor's BINIT# caused this one to enter machine check.
    External,
    /// An error of functional redundancy checking.
    Frc,
    /// An internal parity error.
    InternalParity,
    /// An internal timer error.
    InternalTimer,
    /// An internal error of no class, 0401h to 07FFh.
    InternalUnclassified,
    /// A generic input and output error, 0E0Bh.
    GenericIo,
    /// A code that no row of the table has.
    Other,
    /// An error of the cache hierarchy, of which only the level is known.
    GenericCache {
        ll: u8,
        filter: bool,
    },
    /// An error of a translation lookaside buffer.
    Tlb {
        tt: u8,
        ll: u8,
        filter: bool,
    },
    /// An error of a memory controller; `channel` is CCCC.
    Memory {
        mmm: u8,
        channel: u8,
        filter: bool,
    },
    /// An error of the cache hierarchy.
    Cache {
        rrrr: u8,
        tt: u8,
        ll: u8,
        filter: bool,
    },
    /// An error of a bus or interconnect.
    Bus {
        pp: u8,
        t: u8,
        rrrr: u8,
        ii: u8,
        ll: u8,
        filter: bool,
    },
}

/// Returns the kind of an MCA error code and its subfields. A code that fits no row of the manual's
/// tables is `Other`. (Intel SDM, volume 3, "Simple Error Codes" and "Compound Error Codes".)
#[tactic(auto, using(crate::proofs::PatternLemmas::pattern_bits))]
pub fn code_of(code: u16) -> Code
    ensures rows { result ≡ code_of_rows code }

    // Only 0E0Bh fits two rows, so the order of the rows matters for no other code.
    ensures one_row { code ≢ 0x0e0b → rows_fitted code ≤ 1 }

    // A code is Other if and only if it fits no row.
    ensures other { (result ≡ Code.Other) ↔ (rows_fitted code ≡ 0) }
    ensures in_range { HasFieldsInRange result }

    // A compound code has bit 12 as its filter; a simple one has bit 12 clear.
    ensures filter { result ≢ Code.Other → filter_of result ≡ is_filtered code }
{
    match code {
        0x0000 => Code::NoError,
        0x0001 => Code::Unclassified,
        0x0002 => Code::MicrocodeRom,
        0x0003 => Code::External,
        0x0004 => Code::Frc,
        0x0005 => Code::InternalParity,
        0x0400 => Code::InternalTimer,
        0x0401..=0x07ff => Code::InternalUnclassified,
        0x0e0b => Code::GenericIo,
        _ => compound_code(code),
    }
}

// Returns the kind of a code that isn't a simple code, by the pattern of its bits. Bit 12, the
// filter, is in no pattern.
#[tactic(auto, using(crate::proofs::PatternLemmas::pattern_bits))]
fn compound_code(code: u16) -> Code
    ensures rows { result ≡ reading compound_rows code }
    ensures one_row { count_by (fits_code code) compound_rows ≤ 1 }
    ensures other { (result ≡ Code.Other) ↔ (count_by (fits_code code) compound_rows ≡ 0) }
    ensures in_range { HasFieldsInRange result }
    ensures filter { result ≢ Code.Other → filter_of result ≡ is_filtered code }
{
    let filter = is_filtered(code);
    let ll = field(code, 0, 2);
    let tt = field(code, 2, 2);
    let rrrr = field(code, 4, 4);
    match code & 0xefff {
        0x000c..=0x000f => Code::GenericCache { ll, filter },
        0x0010..=0x001f => Code::Tlb { tt, ll, filter },
        0x0080..=0x00ff => Code::Memory {
            mmm: field(code, 4, 3),
            channel: field(code, 0, 4),
            filter,
        },
        0x0100..=0x01ff => Code::Cache {
            rrrr,
            tt,
            ll,
            filter,
        },
        0x0800..=0x0fff => Code::Bus {
            pp: field(code, 9, 2),
            t: field(code, 8, 1),
            rrrr,
            ii: field(code, 2, 2),
            ll,
            filter,
        },
        _ => Code::Other,
    }
}

// Returns the number in `width` bits of a code from bit `low` on.
fn field(code: u16, low: u32, width: u32) -> u8
    requires place { low < 16 }
    requires width { width ≤ 4 }
    ensures field { result ≡ bits low width code }
    ensures small { result < 2 ^ width }
{
    bits(low, width, code as u64) as u8
}

// Returns F, bit 12 of a compound code.
fn is_filtered(code: u16) -> bool
    ensures { result ≡ is_filtered code }
{
    field(code, 12, 1) == 1
}
