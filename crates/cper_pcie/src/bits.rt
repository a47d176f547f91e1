//! The bits of a status, each of which is a kind of error.

ghost use Rattle.std.specs.Prelude.{◌≡◌, ◌≤◌, nat_eq};
ghost use Rattle.std.specs.Map.{lookup};
ghost use Rattle.std.specs.Option.{option_map};
ghost use Rattle.cper_pcie.specs.Bits.{uncorrectable_names, correctable_names, error_count};

/// Returns the name of an uncorrectable error by its bit, or `None` if the bit has no name.
pub fn uncorrectable_name(bit: u32) -> Option<&'static [u8]>
    ensures { option_map (λ name. name.now) result ≡ lookup (nat_eq bit) uncorrectable_names }
{
    match bit {
        4 => Some(b"data-link"),
        5 => Some(b"surprise-down"),
        12 => Some(b"poisoned-tlp"),
        13 => Some(b"flow-control"),
        14 => Some(b"completion-timeout"),
        15 => Some(b"completer-abort"),
        16 => Some(b"unexpected-completion"),
        17 => Some(b"receiver-overflow"),
        18 => Some(b"malformed-tlp"),
        19 => Some(b"ecrc"),
        20 => Some(b"unsupported-request"),
        21 => Some(b"acs-violation"),
        22 => Some(b"internal"),
        23 => Some(b"mc-blocked"),
        24 => Some(b"atomic-blocked"),
        25 => Some(b"prefix-blocked"),
        _ => None,
    }
}

/// Returns the name of a correctable error by its bit, or `None` if the bit has no name.
pub fn correctable_name(bit: u32) -> Option<&'static [u8]>
    ensures { option_map (λ name. name.now) result ≡ lookup (nat_eq bit) correctable_names }
{
    match bit {
        0 => Some(b"receiver-error"),
        6 => Some(b"bad-tlp"),
        7 => Some(b"bad-dllp"),
        8 => Some(b"replay-rollover"),
        12 => Some(b"replay-timeout"),
        13 => Some(b"advisory"),
        14 => Some(b"corrected-internal"),
        15 => Some(b"header-overflow"),
        _ => None,
    }
}

// Returns how many bits of a status are set; 0 if there is no status.
#[tactic(auto, using(crate::proofs::BitLemmas::ones_are_bits))]
pub(crate) fn error_count(status: Option<u32>) -> u64
    ensures count { result ≡ error_count status }
    ensures few { result ≤ 32 }
{
    match status {
        Some(status) => u64::from(status.count_ones()),
        None => 0,
    }
}
