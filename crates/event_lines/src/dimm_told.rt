//! Reads which DIMM an event of a memory controller names, and at which address.

ghost use Rattle.std.specs.Prelude.{◌≡◌};
ghost use Rattle.std.specs.Option.{option_map};
ghost use Rattle.event_lines.specs.DimmTold.{address_in, before_inside, clocked_dimm, dimm_behind, dimm_told};
ghost use Rattle.event_lines.specs.DimmTold.{label_told, traced_dimm_of};

use crate::driver_event::lacks_place;
use crate::memory_event::{addresses_in, controller_of, place_of};
use crate::memory_words::address_told;
use crate::traced::{clock_place, named_text, names_event};
use bank_lines::{behind_name, cut, value_after, without_spaces};
use ras_script::hexadecimal;

// The bytes that open and close the parentheses of an event: ` (mc:` and `)`.
const AROUND: usize = 6;

/// Returns the address of the error of a line's `mc_event`, and what the kernel calls the DIMM
/// there, whoever made the event. Returns `None` if the line has no such event with a clock before
/// it, if the event has no address, or if the driver says by its message that it doesn't know the
/// place. Allocates nothing.
pub fn traced_dimm(line: &[u8]) -> Option<(u64, &[u8])>
    ensures { option_map (λ told. (told.0, told.1.now)) result ≡ traced_dimm_of line.now }
{
    let text = behind_name(line);
    if !names_event(text) {
        return None;
    }
    clocked_dimm(text)
}

// Returns what the event after the first clock of a text tells.
fn clocked_dimm(text: &[u8]) -> Option<(u64, &[u8])>
    ensures { option_map (λ told. (told.0, told.1.now)) result ≡ clocked_dimm text.now }
{
    match clock_place(text) {
        Some(place) => dimm_behind(named_text(place, text)),
        None => None,
    }
}

// Returns what the event tells that a text after a clock has, from the event's name on.
fn dimm_behind(text: &[u8]) -> Option<(u64, &[u8])>
    ensures { option_map (λ told. (told.0, told.1.now)) result ≡ dimm_behind text.now }
{
    match value_after(b"mc_event: ", text) {
        Some(told) => dimm_told(without_spaces(told)),
        None => None,
    }
}

// Returns what an event with this text tells.
fn dimm_told(text: &[u8]) -> Option<(u64, &[u8])>
    ensures { option_map (λ told. (told.0, told.1.now)) result ≡ dimm_told text.now }
{
    let inside = controller_of(text)?;
    let (_, said) = cut(b':', before_inside(inside, text));
    let label = label_told(said)?;
    let address = address_in(inside)?;
    Some((address, label))
}

// Returns the text before the last ` (mc:`, given the text in the parentheses.
fn before_inside<'a>(inside: &[u8], text: &'a [u8]) -> &'a [u8]
    ensures { result.now ≡ before_inside inside.now text.now }
{
    &text[..text.len().saturating_sub(inside.len() + AROUND)]
}

/// Returns what follows ` on ` in a text that begins with a driver's message, or `None` if the driver
/// says by its message that it doesn't know the place. The message has a space before it, and may be
/// empty.
pub fn label_told(said: &[u8]) -> Option<&[u8]>
    ensures { option_map (λ label. label.now) result ≡ label_told said.now }
{
    let mark = b" on ";
    let place = place_of(mark, said)?;
    let (_, message) = cut(b' ', &said[..place]);
    if lacks_place(message) {
        None
    } else {
        Some(&said[place + mark.len()..])
    }
}

// Returns the address in an event's parentheses, if the event has one.
fn address_in(inside: &[u8]) -> Option<u64>
    ensures { result ≡ address_in inside.now }
{
    let (word, _) = cut(b' ', addresses_in(inside));
    address_told(hexadecimal(value_after(b"address:0x", word)?)?)
}
