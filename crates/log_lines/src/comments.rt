//! The comments of a filter, and the text of a line that one call can print.

ghost use Rattle.std.specs.Prelude.{◌≡◌, ◌==◌, ◌&&◌, ◌∷◌, ◌++◌, [], map, take, if◌then◌else◌, OnOk};
ghost use Rattle.log_lines.specs.declared.comments.TheConstants.{MOST_SHOWN};
ghost use Rattle.log_lines.specs.Comments.{comment, cut_said, exceeds_call, fitted, has_comment, is_plain, limited, shown_byte, shown_of, with_shown};

use line_filters::MOST_AT_ONCE;
use ras_base::{NoMemory, push_number};
use std::alloc::Global;

/// The most bytes of a line that a comment shows.
pub const MOST_SHOWN: usize = 100;

/// The most bytes of a filter's last text, so that one call prints it behind a text that waits.
pub const MOST_LAST: usize = 3_000;

// Appends a comment about the input of this number.
pub(crate) fn push_about(text: &mut Vec<u8>, name: &[u8], number: u64) -> Result<(), NoMemory>
    ensures { OnOk result (text.new.items ≡ text.old.items ++ comment name.now number) }
{
    text.extend_from_slice(name)?;
    push_number(text, number)?;
    text.push(b'\n')?;
    Ok(())
}

// Appends a comment about the bytes after the last line feed, if there are any.
pub(crate) fn push_cut_off(text: &mut Vec<u8>, cut: bool, number: u64) -> Result<(), NoMemory>
    ensures comment { OnOk result (text.new.items ≡ text.old.items ++ cut_said number cut) }
{
    if cut {
        push_about(text, b"# cut ", number)
    } else {
        Ok(())
    }
}

// Appends the text about a line of this number: with the line's beginning behind its comments, or
// without if it would be too long, or instead of a text that is too long a comment.
#[tactic(auto, using(crate::proofs::LimitLemmas::fitted_plain))]
pub(crate) fn push_fitted(
    alloc: Global,
    text: &mut Vec<u8>,
    said: &[u8],
    number: u64,
    line: &[u8],
) -> Result<(), NoMemory>
    ensures { OnOk result
        (text.new.items ≡ text.old.items ++ fitted number line.now said.now) }
{
    if is_plain(said) {
        text.extend_from_slice(said)?;
        return Ok(());
    }
    let mut shown = Vec::new(alloc);
    push_shown(&mut shown, front_of(line))?;
    let mut full = Vec::new(alloc);
    push_commented(&mut full, said, &shown)?;
    if exceeds_call(&full) {
        push_limited(text, said, MOST_AT_ONCE, number, &shown)
    } else {
        text.extend_from_slice(&full)?;
        Ok(())
    }
}

// Appends a text, or if it has more bytes than this a comment with the number of its line and this
// behind it.
pub(crate) fn push_limited(
    text: &mut Vec<u8>,
    said: &[u8],
    most: usize,
    number: u64,
    shown: &[u8],
) -> Result<(), NoMemory>
    ensures { OnOk result
        (text.new.items ≡ text.old.items ++ limited most number shown.now said.now) }
{
    if said.len() <= most {
        text.extend_from_slice(said)?;
        return Ok(());
    }
    text.extend_from_slice(b"# left out ")?;
    push_number(text, number)?;
    text.push(b' ')?;
    text.extend_from_slice(shown)?;
    text.push(b'\n')?;
    Ok(())
}

// Whether a text is printed as it is: it has no comment, and one call can print it.
fn is_plain(said: &[u8]) -> bool
    ensures { result ≡ is_plain said.now }
{
    !has_comment(said) && !exceeds_call(said)
}

// Whether a text may have a comment: no other line of the filters has the sign of one.
fn has_comment(text: &[u8]) -> bool
    ensures { result ≡ has_comment text.now }
{
    text.contains(&b'#')
}

// Whether one call can't print a text.
pub(crate) fn exceeds_call(text: &[u8]) -> bool
    ensures { result ≡ exceeds_call text.now }
{
    MOST_AT_ONCE < text.len()
}

// The bytes of a line that a comment shows.
fn front_of(line: &[u8]) -> &[u8]
    ensures { result.now ≡ take MOST_SHOWN line.now }
{
    if MOST_SHOWN < line.len() {
        &line[..MOST_SHOWN]
    } else {
        line
    }
}

// Appends bytes, and `?` for each that isn't printable ASCII.
fn push_shown(shown: &mut Vec<u8>, bytes: &[u8]) -> Result<(), NoMemory>
    ensures { OnOk result (shown.new.items ≡ shown.old.items ++ map shown_byte bytes.now) }
{
    for byte in bytes {
        shown.push(shown_byte(*byte))?;
    }
    Ok(())
}

// A byte, or `?` if it isn't printable ASCII.
fn shown_byte(byte: u8) -> u8
    ensures { result ≡ shown_byte byte }
{
    if 31 < byte && byte < 127 { byte } else { b'?' }
}

// Appends a text, with this at the end of each of its comments.
fn push_commented(text: &mut Vec<u8>, said: &[u8], shown: &[u8]) -> Result<(), NoMemory>
    ensures { OnOk result
        (text.new.items ≡ text.old.items ++ with_shown shown.now said.now) }
{
    let mut begins = true;
    let mut inside = false;
    for byte in said {
        inside = is_remark(begins, inside, *byte);
        begins = *byte == b'\n';
        push_byte(text, *byte, inside, shown)?;
    }
    Ok(())
}

// Whether a line is a comment, by a byte of it that begins the line or not.
fn is_remark(begins: bool, inside: bool, byte: u8) -> bool
    ensures { result ≡ (if begins then byte == 35 else inside) }
{
    if begins { byte == b'#' } else { inside }
}

// Appends a byte of a line that is a comment or not, and before the comment's end what it shows.
fn push_byte(text: &mut Vec<u8>, byte: u8, remark: bool, shown: &[u8]) -> Result<(), NoMemory>
    ensures { OnOk result (text.new.items ≡ text.old.items
        ++ ((if byte == 10 && remark then 32 ∷ shown.now else []) ++ byte ∷ [])) }
{
    if byte == b'\n' && remark {
        text.push(b' ')?;
        text.extend_from_slice(shown)?;
    }
    text.push(byte)?;
    Ok(())
}
