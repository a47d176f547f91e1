//! The words of the subfields of compound codes, one table for each subfield.

ghost use Rattle.std.specs.Prelude.{◌≡◌, ◌<◌};
ghost use Rattle.mca_codes.specs.Texts.{word_at, level_words, transaction_words, request_words, participation_words, timeout_words, target_words, memory_words, channel_word, filter_ending};

/// Returns the word for LL, the memory hierarchy level.
pub fn level(ll: u8) -> &'static [u8]
    requires { ll < 4 }
    ensures { result.now ≡ word_at level_words ll }
{
    match ll {
        0 => b"L0",
        1 => b"L1",
        2 => b"L2",
        _ => b"LG",
    }
}

/// Returns the word for TT, the transaction type.
pub fn transaction(tt: u8) -> &'static [u8]
    requires { tt < 4 }
    ensures { result.now ≡ word_at transaction_words tt }
{
    match tt {
        0 => b"I",
        1 => b"D",
        2 => b"G",
        _ => b"RES",
    }
}

/// Returns the word for RRRR, the request.
pub fn request(rrrr: u8) -> &'static [u8]
    ensures { result.now ≡ word_at request_words rrrr }
{
    match rrrr {
        0 => b"ERR",
        1 => b"RD",
        2 => b"WR",
        3 => b"DRD",
        4 => b"DWR",
        5 => b"IRD",
        6 => b"PREFETCH",
        7 => b"EVICT",
        8 => b"SNOOP",
        _ => b"RES",
    }
}

/// Returns the word for PP, the participation of the processor.
pub fn participation(pp: u8) -> &'static [u8]
    requires { pp < 4 }
    ensures { result.now ≡ word_at participation_words pp }
{
    match pp {
        0 => b"SRC",
        1 => b"RES",
        2 => b"OBS",
        _ => b"GEN",
    }
}

/// Returns the word for T, the time-out.
pub fn timeout(t: u8) -> &'static [u8]
    requires { t < 2 }
    ensures { result.now ≡ word_at timeout_words t }
{
    match t {
        0 => b"NOTIMEOUT",
        _ => b"TIMEOUT",
    }
}

/// Returns the word for II, memory or input and output.
pub fn target(ii: u8) -> &'static [u8]
    requires { ii < 4 }
    ensures { result.now ≡ word_at target_words ii }
{
    match ii {
        0 => b"M",
        1 => b"RES",
        2 => b"IO",
        _ => b"OTHER",
    }
}

/// Returns the word for MMM, the memory transaction.
pub fn memory(mmm: u8) -> &'static [u8]
    ensures { result.now ≡ word_at memory_words mmm }
{
    match mmm {
        0 => b"GEN",
        1 => b"RD",
        2 => b"WR",
        3 => b"AC",
        4 => b"SCRUB",
        _ => b"RES",
    }
}

/// Returns the word for CCCC, the channel; 15 is an unspecified channel.
#[tactic(auto, using(std::proofs::lemmas::Fmt::decimal_digit, std::proofs::lemmas::Fmt::decimal_step))]
pub fn channel(channel: u8) -> &'static [u8]
    requires { channel < 16 }
    ensures { result.now ≡ channel_word channel }
{
    match channel {
        0 => b"0",
        1 => b"1",
        2 => b"2",
        3 => b"3",
        4 => b"4",
        5 => b"5",
        6 => b"6",
        7 => b"7",
        8 => b"8",
        9 => b"9",
        10 => b"10",
        11 => b"11",
        12 => b"12",
        13 => b"13",
        14 => b"14",
        _ => b"-",
    }
}

/// Returns the ending of a compound code's text: `/F` if its filter is set, else nothing.
pub fn ending(filter: bool) -> &'static [u8]
    ensures { result.now ≡ filter_ending filter }
{
    if filter { b"/F" } else { b"" }
}
