//! Which lines of a kernel log are the kernel's own, by the text before their prefix.

ghost use Rattle.std.specs.Prelude.{◌≡◌, ◌+◌, ◌-◌, ◌<◌, ◌≤◌, ◌==◌, ◌↔◌, codes, drop, length, not, IfSome, IsTrue};
ghost use Rattle.std.specs.List.{list_any, position};
ghost use Rattle.memchr.specs.Find.{FindsNeedle, OccursAt};
ghost use Rattle.bank_lines.specs.LogHeads.{after, are_digits, are_signs, has_digit, is_after_brackets, is_bracketed, is_caller, is_dated, is_iso_time, is_joined, is_logger, is_own, is_stamp, is_time, mark_place, up_to, without_spaces, are_clock_signs, are_flag_signs, are_flags, are_name_signs, are_names, is_clock, is_facility, is_host, is_kernel, is_leveled, is_name, is_name_sign, is_number, is_record, is_timed, record_time};

use ras_script::position_of;

/// Returns the index of the first occurrence of a text in another. Requires a text of at least one
/// byte. Searches for one byte of the text, because a search for the whole text costs more to set
/// up than to look through a line.
pub fn mark_place(text: &[u8], within: &[u8]) -> Option<usize>
    requires { 0 < length text.now }
    ensures place { result ≡ mark_place text.now within.now }
    ensures fits { IfSome result (λ place. place + length text.now ≤ length within.now) }
{
    place_by(pivot_of(text), text, within)
}

// The index of the byte that is searched for: the text's first capital letter, which few lines
// without the text have, or its first byte.
fn pivot_of(text: &[u8]) -> usize
    requires { 0 < length text.now }
    ensures { result < length text.now }
{
    match text.iter().position(|b| b.is_ascii_uppercase()) {
        Some(place) => place,
        None => 0,
    }
}

// Returns the index of the first occurrence of a text, searching for its byte at `pivot`.
fn place_by(pivot: usize, text: &[u8], within: &[u8]) -> Option<usize>
    requires { pivot < length text.now }
    ensures { FindsNeedle within.now text.now 0 result }
{
    let mut from = 0;
    while let Some(passed) = position_of(text[pivot], &within[from..]) {
        let place = from + passed;
        if stands_round(place, pivot, text, within) {
            return Some(place - pivot);
        }
        from = place + 1;
    }
    None
}

// Returns whether a text occurs with its byte at `pivot` at this index.
pub(crate) fn stands_round(place: usize, pivot: usize, text: &[u8], within: &[u8]) -> bool
    requires { place ≤ length within.now }
    ensures { IsTrue result ↔ ((pivot ≤ place) × OccursAt within.now text.now (place - pivot)) }
{
    place >= pivot && within[place - pivot..].starts_with(text)
}

/// Returns a text up to the first such byte, or all of it if there is none, and the text after that
/// byte.
#[tactic(auto, using(crate::proofs::LogHeadLemmas::found_front, crate::proofs::LogHeadLemmas::found_rest, crate::proofs::LogHeadLemmas::whole_front, crate::proofs::LogHeadLemmas::whole_rest))]
pub fn cut(byte: u8, text: &[u8]) -> (&[u8], &[u8])
    ensures front { result.0.now ≡ up_to byte text.now }
    ensures rest { result.1.now ≡ after byte text.now }
{
    match position_of(byte, text) {
        Some(place) => (&text[..place], &text[place + 1..]),
        None => (text, &[]),
    }
}

// Returns the index of the first byte that isn't a space.
fn word_start(text: &[u8]) -> Option<usize>
    ensures place { result ≡ position (λ b. not (b == 32)) text.now }
    ensures within { IfSome result (λ place. place < length text.now) }
{
    text.iter().position(|b| *b != b' ')
}

/// Returns a text without the spaces before it.
#[tactic(auto, using(crate::proofs::LogHeadLemmas::found_text, crate::proofs::LogHeadLemmas::only_spaces))]
pub fn without_spaces(text: &[u8]) -> &[u8]
    ensures { result.now ≡ without_spaces text.now }
{
    match word_start(text) {
        Some(place) => &text[place..],
        None => &[],
    }
}

// Returns a text without its first byte.
fn without_first(text: &[u8]) -> &[u8]
    ensures { result.now ≡ drop 1 text.now }
{
    match text {
        [_, rest @ ..] => rest,
        [] => &[],
    }
}

// Returns whether a text consists of digits.
fn are_digits(text: &[u8]) -> bool
    ensures { result ≡ are_digits text.now }
{
    text.iter().all(|b| b.is_ascii_digit())
}

// Returns whether a text has a digit.
pub(crate) fn has_digit(text: &[u8]) -> bool
    ensures { result ≡ has_digit text.now }
{
    text.iter().any(|b| b.is_ascii_digit())
}

// Returns whether a text is a number.
pub(crate) fn is_number(text: &[u8]) -> bool
    ensures { result ≡ is_number text.now }
{
    !text.is_empty() && are_digits(text)
}

// Returns whether a byte is a character of a host's name.
fn is_name_sign(byte: u8) -> bool
    ensures { result ≡ is_name_sign byte }
{
    matches!(byte, b'a'..=b'z' | b'A'..=b'Z' | b'0'..=b'9' | b'.' | b'-' | b'_')
}

// Returns whether a word is a host's name.
fn is_name(word: &[u8]) -> bool
    ensures { result ≡ is_name word.now }
{
    !word.is_empty() && are_name_signs(word)
}

// Returns whether a text consists of characters of names.
fn are_name_signs(text: &[u8]) -> bool
    ensures { result ≡ are_name_signs text.now }
{
    text.iter().all(|b| is_name_sign(*b))
}

// Returns whether a text consists of names and spaces.
fn are_names(text: &[u8]) -> bool
    ensures { result ≡ are_names text.now }
{
    text.iter().all(|b| *b == b' ' || is_name_sign(*b))
}

// Returns whether a text is a space and the host's name, or nothing.
fn is_host(text: &[u8]) -> bool
    ensures { result ≡ is_host text.now }
{
    text.is_empty() || text.starts_with(b" ") && is_name(without_first(text))
}

// Returns whether a byte is a character of a time.
fn is_sign(byte: u8) -> bool
    ensures { result ≡ list_any (λ sign. sign == byte) (codes "0123456789:.,+-TZ") }
{
    matches!(
        byte,
        b'0'..=b'9' | b':' | b'.' | b',' | b'+' | b'-' | b'T' | b'Z'
    )
}

// Returns whether a text consists of characters of times.
fn are_signs(text: &[u8]) -> bool
    ensures { result ≡ are_signs text.now }
{
    text.iter().all(|b| is_sign(*b))
}

// Returns whether a text has no space.
pub(crate) fn is_joined(text: &[u8]) -> bool
    ensures { result ≡ is_joined text.now }
{
    text.iter().all(|b| *b != b' ')
}

/// Returns whether a line's head, the text before its prefix, shows the line to be the kernel's
/// own.
pub fn is_own(head: &[u8]) -> bool
    ensures { result ≡ is_own head.now }
{
    match mark_place(b": ", head) {
        Some(place) => is_logger(&head[..place]) && is_stamp(&head[place + 2..]),
        None => is_stamp(head) || is_record(head),
    }
}

// Returns whether a text may come before the first colon that a space follows.
fn is_logger(text: &[u8]) -> bool
    ensures { result ≡ is_logger text.now }
{
    is_facility(text) || is_kernel(text)
}

// Returns whether a text is the kernel's facility and a level.
fn is_facility(text: &[u8]) -> bool
    ensures { result ≡ is_facility text.now }
{
    let (_, level) = cut(b':', text);
    text.starts_with(b"kern  :") && are_names(level)
}

// Returns whether a text is a time, perhaps the host's name, and the kernel's name.
fn is_kernel(text: &[u8]) -> bool
    ensures { result ≡ is_kernel text.now }
{
    match text.strip_suffix(b" kernel") {
        Some(front) => is_dated(front),
        None => false,
    }
}

// Returns whether a text may come before ` kernel: `.
fn is_dated(text: &[u8]) -> bool
    ensures { result ≡ is_dated text.now }
{
    if text.starts_with(b"[") {
        let (time, host) = cut(b']', text);
        return time.len() < text.len() && is_clock(without_first(time)) && is_host(host);
    }
    is_timed(text)
}

// Returns whether a text is words of a time, followed by names.
fn is_timed(text: &[u8]) -> bool
    ensures { result ≡ is_timed text.now }
{
    let (first, rest) = cut(b' ', text);
    let (second, names) = cut(b' ', without_spaces(rest));
    let (third, more) = cut(b' ', names);
    is_time(first) && are_names(rest)
        || is_name(first) && is_time(second) && is_time(third) && are_names(more)
}

// Returns whether a text may come right before a message of the kernel.
fn is_stamp(text: &[u8]) -> bool
    ensures { result ≡ is_stamp text.now }
{
    text.is_empty() || is_bracketed(text) || is_leveled(text) || is_iso_time(text)
}

// Returns whether a text is a level and a time in brackets.
fn is_leveled(text: &[u8]) -> bool
    ensures { result ≡ is_leveled text.now }
{
    let (level, rest) = cut(b'>', text);
    text.starts_with(b"<") && is_number(without_first(level)) && is_bracketed(rest)
}

// Returns whether a text is a time in brackets, perhaps a caller, and a space.
fn is_bracketed(text: &[u8]) -> bool
    ensures { result ≡ is_bracketed text.now }
{
    let (time, rest) = cut(b']', text);
    text.starts_with(b"[") && is_clock(without_first(time)) && is_after_brackets(rest)
}

// Returns whether a text may follow a time in brackets: a space, a caller, or both.
fn is_after_brackets(text: &[u8]) -> bool
    ensures { result ≡ is_after_brackets text.now }
{
    text == b" ".as_slice()
        || is_caller(text)
        || text.starts_with(b" ") && is_caller(without_first(text))
}

// Returns whether a text is a caller in brackets, and a space.
fn is_caller(text: &[u8]) -> bool
    ensures { result ≡ is_caller text.now }
{
    let caller = without_spaces(without_first(text));
    let (word, rest) = cut(b']', caller);
    text.starts_with(b"[")
        && (caller.starts_with(b"T") || caller.starts_with(b"C"))
        && are_digits(without_first(word))
        && rest == b" ".as_slice()
}

// Returns whether a text is the time that `dmesg --time-format iso` prints before a message.
fn is_iso_time(text: &[u8]) -> bool
    ensures { result ≡ is_iso_time text.now }
{
    let (word, rest) = cut(b' ', text);
    is_time(word) && text.get(10) == Some(&b'T') && rest.is_empty()
}

// Returns whether a word is of a time.
fn is_time(word: &[u8]) -> bool
    ensures { result ≡ is_time word.now }
{
    has_digit(word) && are_signs(word)
}

// Returns whether a text is a time that brackets may hold.
fn is_clock(text: &[u8]) -> bool
    ensures { result ≡ is_clock text.now }
{
    has_digit(text) && are_clock_signs(text)
}

// Returns whether a byte is a character of a time in brackets, and not of a name.
fn is_clock_mark(byte: u8) -> bool
    ensures { result ≡ list_any (λ sign. sign == byte) (codes " :+<>") }
{
    matches!(byte, b' ' | b':' | b'+' | b'<' | b'>')
}

// Returns whether a text consists of characters of a time in brackets.
fn are_clock_signs(text: &[u8]) -> bool
    ensures { result ≡ are_clock_signs text.now }
{
    text.iter().all(|b| is_name_sign(*b) || is_clock_mark(*b))
}

// Returns the time in the head of a record, and the text after the time.
pub(crate) fn record_time(text: &[u8]) -> (&[u8], &[u8])
    ensures time { result.0.now ≡ record_time text.now }
    ensures rest { result.1.now ≡ after 44 (after 44 (after 44 text.now)) }
{
    let (_, rest) = cut(b',', text);
    let (_, rest) = cut(b',', rest);
    cut(b',', rest)
}

// Returns whether a text is the head of a record of /dev/kmsg.
fn is_record(text: &[u8]) -> bool
    ensures { result ≡ is_record text.now }
{
    let (level, rest) = cut(b',', text);
    let (sequence, _) = cut(b',', rest);
    let (time, flags) = record_time(text);
    is_number(level) && is_number(sequence) && is_number(time) && are_flags(flags)
}

// Returns whether a text may follow the time of a record.
fn are_flags(text: &[u8]) -> bool
    ensures { result ≡ are_flags text.now }
{
    let (flags, rest) = cut(b';', text);
    text.ends_with(b";") && rest.is_empty() && are_flag_signs(flags)
}

// Returns whether a text consists of characters of flags.
fn are_flag_signs(text: &[u8]) -> bool
    ensures { result ≡ are_flag_signs text.now }
{
    text.iter().all(|b| is_name_sign(*b) || b",=+".contains(b))
}
