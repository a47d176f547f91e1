//! Reads which DIMM a kernel log names, and at which address.

ghost use Rattle.std.specs.Prelude.{◌≡◌, ◌+◌, ◌≤◌, drop, length, IfSome, None, Some, if◌then◌else◌};
ghost use Rattle.std.specs.Option.{option_map};
ghost use Rattle.block_lines.specs.LogLines.{without_return};
ghost use Rattle.log_lines.specs.LogDimm.{address_at, some_address, said_dimm, begins_error, counted_text, dimm_in_log, edac_dimm};
ghost use Rattle.log_lines.specs.LogDimm.{kept_address, last_place, page_address, paged_dimm};
ghost use Rattle.log_lines.specs.LogDimm.{place_after, report_dimm, own_words, slot_named};
ghost use Rattle.log_lines.specs.LogDimm.{log_told_after, placed, told_after_if, told_if, trimmed, unless_over, whole_after, whole_dimm};
ghost use Rattle.log_lines.specs.LogDimm.{words_after, words_dimm};

use bank_lines::{cut, is_own, mark_place, value_after, without_spaces};
use event_lines::label_told;
use ras_script::{decimal, hexadecimal};

// The bytes of a page.
const PAGE: u64 = 4096;

// The pages below 2^64.
const PAGES: u64 = 1 << 52;

/// What a log said last of where a memory error of a firmware's report is: the report's number and
/// the address.
#[derive(Clone, Copy, Debug, PartialEq, Eq)]
pub(crate) struct ToldInLog {
    pub(crate) place: Option<(u64, u64)>,
}

impl ToldInLog {
    /// Returns what is told before the first line: nothing.
    pub(crate) fn new() -> ToldInLog
        ensures { result ≡ record { place = None } }
    {
        ToldInLog { place: None }
    }

    // Takes a line, and returns the address of an error and what the kernel calls the DIMM, if the
    // line says both, or ends what a report says of both.
    fn take<'a>(&mut self, line: &'a [u8]) -> Option<(u64, &'a [u8])>
        ensures told { option_map (λ told. (told.0, told.1.now)) result
            ≡ dimm_in_log self.old line.now }
        ensures after { self.new ≡ log_told_after self.old line.now }
    {
        self.take_whole(whole_line(line))
    }

    // Takes a line as `take` does if somebody listens, and otherwise returns `None`.
    pub(crate) fn take_if<'a>(&mut self, listening: bool, line: &'a [u8]) -> Option<(u64, &'a [u8])>
        ensures told { option_map (λ told. (told.0, told.1.now)) result
            ≡ told_if listening self.old line.now }
        ensures after { self.new ≡ told_after_if listening self.old line.now }
    {
        if listening { self.take(line) } else { None }
    }

    // Takes a line without its carriage return.
    fn take_whole<'a>(&mut self, line: &'a [u8]) -> Option<(u64, &'a [u8])>
        ensures told { option_map (λ told. (told.0, told.1.now)) result
            ≡ whole_dimm self.old line.now }
        ensures after { self.new.place ≡ whole_after self.old line.now }
    {
        let (head, text) = cut(b'{', line);
        let mark = b"EDAC MC";
        match mark_place(mark, head) {
            Some(place) => edac_dimm(&head[..place], behind(place + mark.len(), line)),
            None => self.take_report(head, text),
        }
    }

    // Takes a line that EDAC didn't print.
    fn take_report<'a>(&mut self, head: &[u8], text: &'a [u8]) -> Option<(u64, &'a [u8])>
        ensures told { option_map (λ told. (told.0, told.1.now)) result
            ≡ report_dimm self.old head.now text.now }
        ensures after { self.new.place ≡ place_after self.old head.now text.now }
    {
        match own_words(head, text) {
            Some((report, words)) => self.take_words(report, words),
            None => None,
        }
    }

    // Takes what a line of the report with this number says.
    fn take_words<'a>(&mut self, report: u64, words: &'a [u8]) -> Option<(u64, &'a [u8])>
        ensures told { option_map (λ told. (told.0, told.1.now)) result
            ≡ words_dimm self.old.place report words.now }
        ensures after { self.new.place ≡ words_after self.old.place report words.now }
    {
        let told = words_dimm(self.place, report, words);
        self.place = words_after(self.place, report, words);
        told
    }
}

// Returns a line without the carriage return at its end.
fn whole_line(line: &[u8]) -> &[u8]
    ensures { result.now ≡ without_return line.now }
{
    match line.strip_suffix(b"\r") {
        Some(front) => front,
        None => line,
    }
}

// Returns a text without this many bytes before it.
#[tactic(auto, using(std::proofs::lemmas::List::drop_all))]
fn behind(count: usize, text: &[u8]) -> &[u8]
    ensures { result.now ≡ drop count text.now }
{
    if count <= text.len() {
        &text[count..]
    } else {
        &[]
    }
}

// Returns what EDAC's line tells, given its head and the text behind `EDAC MC`.
fn edac_dimm<'a>(head: &[u8], text: &'a [u8]) -> Option<(u64, &'a [u8])>
    ensures { option_map (λ told. (told.0, told.1.now)) result ≡ edac_dimm head.now text.now }
{
    if is_own(head) {
        said_dimm(counted_text(text)?)
    } else {
        None
    }
}

// Returns what EDAC's line tells, from the message on.
fn said_dimm(said: &[u8]) -> Option<(u64, &[u8])>
    ensures { option_map (λ told. (told.0, told.1.now)) result ≡ said_dimm said.now }
{
    match label_told(said) {
        Some(text) => paged_dimm(text),
        None => None,
    }
}

// Returns the text behind `<n>: <k> CE` or `<n>: <k> UE`.
fn counted_text(text: &[u8]) -> Option<&[u8]>
    ensures { option_map (λ said. said.now) result ≡ counted_text text.now }
{
    let (controller, rest) = cut(b':', text);
    decimal(controller, u64::MAX)?;
    let counted = value_after(b" ", rest)?;
    let (count, kind) = cut(b' ', counted);
    decimal(count, u64::MAX)?;
    match value_after(b"CE", kind) {
        Some(said) => Some(said),
        None => value_after(b"UE", kind),
    }
}

// Returns the address and the label of EDAC's line, from the label on.
fn paged_dimm(text: &[u8]) -> Option<(u64, &[u8])>
    ensures { option_map (λ told. (told.0, told.1.now)) result ≡ paged_dimm text.now }
{
    let mark = b" page:0x";
    let page = last_place(mark, text)?;
    let end = last_place(b" (", &text[..page])?;
    let address = page_address(behind(page + mark.len(), text))?;
    Some((address, &text[..end]))
}

// Returns the index of the last occurrence of a text in another.
fn last_place(mark: &[u8], text: &[u8]) -> Option<usize>
    ensures place { result ≡ last_place mark.now text.now }
    ensures within { IfSome result (λ place. place + 1 ≤ length text.now) }
{
    let mut found = None;
    for place in 0..text.len() {
        found = later(text[place..].starts_with(mark), place, found);
    }
    found
}

// Returns an index if a text was found there, and otherwise what was found before.
fn later(is_found: bool, place: usize, before: Option<usize>) -> Option<usize>
    ensures { result ≡ (if is_found then Some place else before) }
{
    if is_found { Some(place) } else { before }
}

// Returns the address in `<page> offset:0x<offset> grain:`.
fn page_address(text: &[u8]) -> Option<u64>
    ensures { result ≡ page_address text.now }
{
    let (page, rest) = cut(b' ', text);
    let page = hexadecimal(page)?;
    let (offset, rest) = cut(b' ', value_after(b"offset:0x", rest)?);
    let offset = hexadecimal(offset)?;
    value_after(b"grain:", rest)?;
    address_at(page, offset)
}

// Returns the address in a page.
fn address_at(page: u64, offset: u64) -> Option<u64>
    ensures { result ≡ address_at page offset }
{
    if offset < PAGE && page < PAGES {
        some_address(page * PAGE + offset)
    } else {
        None
    }
}

// Returns an address unless it is 0.
fn some_address(address: u64) -> Option<u64>
    ensures { result ≡ some_address address }
{
    if 0 < address { Some(address) } else { None }
}

// Returns the number of a report and what its line says, given the head before the line's first
// brace and the text behind it.
fn own_words<'a>(head: &[u8], text: &'a [u8]) -> Option<(u64, &'a [u8])>
    ensures { option_map (λ said. (said.0, said.1.now)) result ≡ own_words head.now text.now }
{
    let (number, marked) = cut(b'}', text);
    let report = decimal(number, u64::MAX)?;
    let words = value_after(b"[Hardware Error]: ", marked)?;
    if is_own(head) {
        Some((report, words))
    } else {
        None
    }
}

// Returns what a report's line tells, given the address that was kept.
fn words_dimm(place: Option<(u64, u64)>, report: u64, words: &[u8]) -> Option<(u64, &[u8])>
    ensures { option_map (λ told. (told.0, told.1.now)) result
        ≡ words_dimm place report words.now }
{
    let name = value_after(b"  DIMM location: ", words)?;
    let address = kept_address(place, report)?;
    Some((address, slot_named(name)))
}

// Returns the address that was kept of the report with this number.
fn kept_address(place: Option<(u64, u64)>, report: u64) -> Option<u64>
    ensures { result ≡ kept_address place report }
{
    match place {
        Some((number, address)) if number == report => Some(address),
        _ => None,
    }
}

// Returns what is kept after a report's line.
fn words_after(place: Option<(u64, u64)>, report: u64, words: &[u8]) -> Option<(u64, u64)>
    ensures { result ≡ words_after place report words.now }
{
    match value_after(b"  physical_address: 0x", words) {
        Some(digits) => placed(report, digits),
        None => unless_over(place, words),
    }
}

// Returns what was kept, unless a line names the DIMM or begins another error.
fn unless_over(place: Option<(u64, u64)>, words: &[u8]) -> Option<(u64, u64)>
    ensures { result ≡ unless_over place words.now }
{
    if value_after(b"  DIMM location: ", words).is_some() || begins_error(words) {
        None
    } else {
        place
    }
}

// Returns the number of a report and an address, if it can be read.
fn placed(report: u64, digits: &[u8]) -> Option<(u64, u64)>
    ensures { result ≡ placed report digits.now }
{
    let address = hexadecimal(digits)?;
    Some((report, address))
}

// Returns whether a line begins an error or its section.
fn begins_error(words: &[u8]) -> bool
    ensures { result ≡ begins_error words.now }
{
    value_after(b" Error ", words).is_some() || value_after(b"  section_type: ", words).is_some()
}

// Returns what a report calls a DIMM.
fn slot_named(text: &[u8]) -> &[u8]
    ensures { result.now ≡ slot_named text.now }
{
    let name = without_spaces(trimmed(text));
    match value_after(b"not present. ", name) {
        Some(handle) => handle,
        None => name,
    }
}

// Returns a text without the spaces at its end.
fn trimmed(text: &[u8]) -> &[u8]
    ensures { result.now ≡ trimmed text.now }
{
    let mut end = 0;
    for place in 0..text.len() {
        if text[place] != b' ' {
            end = place + 1;
        }
    }
    &text[..end]
}
