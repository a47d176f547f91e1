//! Whether the manual gives a code to a recoverable error.

ghost use Rattle.std.specs.Prelude.{◌≡◌};
ghost use Rattle.mca_codes.specs.Marks.{unfiltered_mark, mark_of_number, mark_of_kind};
ghost use Rattle.mca_codes.specs.Codes.{code_of_rows};

/// The kind of recoverable error that the manual gives a code to.
#[derive(Clone, Copy, Debug, PartialEq, Eq)]
pub enum Mark {
    /// No recoverable error.
    Neither,
    /// Action optional: memory scrubbing, or an explicit writeback of the L3 cache.
    Srao,
    /// Action required: a data load, or an instruction fetch.
    Srar,
}

/// Returns the kind of recoverable error that the manual gives an MCA error code to, whatever its
/// filter bit is. (Intel SDM, volume 3, "Architecturally Defined UCR Errors".)
#[tactic(auto, using(crate::proofs::PatternLemmas::unfiltered_and, crate::proofs::MarkLemmas::mark_by_kind))]
pub fn mark_of(code: u16) -> Mark
    ensures mark { result ≡ mark_of_number code }

    // The codes listed are those of these kinds, by what they say.
    ensures kind { result ≡ mark_of_kind (code_of_rows code) }
{
    unfiltered_mark(code & 0xefff)
}

// The mark of a code whose filter is cleared.
fn unfiltered_mark(code: u16) -> Mark
    ensures { result ≡ unfiltered_mark code }
{
    match code {
        0x00c0..=0x00cf | 0x017a => Mark::Srao,
        0x0134 | 0x0150 => Mark::Srar,
        _ => Mark::Neither,
    }
}
