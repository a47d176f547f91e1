//! Finds the events that the kernel's EDAC drivers made, and reads the memory errors in them.

ghost use Rattle.std.specs.Prelude.{◌≡◌};
ghost use Rattle.event_lines.specs.Driver.{any_event_of, before_on, driver_behind, driver_error_of, driver_event};
ghost use Rattle.event_lines.specs.Driver.{driver_place, lacks_place, message_of, place_told};
ghost use Rattle.ras_script.specs.Number.{decimal_of};

use crate::memory_event::{controller_error, controller_of, place_of};
use crate::traced::{
    LineEvent, clock_event, clock_place, found_memory, has_name, line_event, named_text,
    names_event, stamp_at,
};
use bank_lines::{behind_name, cut, value_after, without_spaces};
use block_lines::{ErrorLocation, MemoryError};
use ras_script::decimal;

// Returns which event a line has. `drivers` says whether every driver's event of a memory
// controller is a memory error. Allocates nothing.
pub(crate) fn any_event(line: &[u8], drivers: bool) -> LineEvent
    ensures { result ≡ any_event_of drivers line.now }
{
    if !drivers {
        return line_event(line);
    }
    let text = behind_name(line);
    if !names_event(text) {
        return LineEvent::Absent;
    }
    match clock_event(text) {
        LineEvent::Absent => match driver_event(text) {
            LineEvent::Absent => {
                if has_name(true, text) {
                    LineEvent::Unread
                } else {
                    LineEvent::Absent
                }
            }
            event => event,
        },
        event => event,
    }
}

// Returns the driver's event after the first clock of a text.
fn driver_event(text: &[u8]) -> LineEvent
    ensures { result ≡ driver_event text.now }
{
    match clock_place(text) {
        Some(place) => driver_behind(stamp_at(place, text), named_text(place, text)),
        None => LineEvent::Absent,
    }
}

// Returns the driver's event that a text after a clock has, from the event's name on.
fn driver_behind(stamp: Option<u64>, text: &[u8]) -> LineEvent
    ensures { result ≡ driver_behind stamp text.now }
{
    match value_after(b"mc_event: ", text) {
        Some(told) => found_memory(stamp, driver_error(without_spaces(told))),
        None => LineEvent::Absent,
    }
}

// Returns the error of a driver's event with this text, if it can be read.
fn driver_error(text: &[u8]) -> Option<MemoryError>
    ensures { result ≡ driver_error_of text.now }
{
    let controller = controller_of(text)?;
    let (number, rest) = cut(b' ', controller);
    let (layers, _) = cut(b' ', rest);
    let layers = value_after(b"location:", layers)?;
    let error = controller_error(text, controller, b"")?;
    Some(MemoryError {
        location: place_told(text, number, layers),
        ..error
    })
}

// Returns where the error of an event with this text is. Nothing is known of it if the message says
// that the driver doesn't know it.
fn place_told(text: &[u8], number: &[u8], layers: &[u8]) -> ErrorLocation
    ensures { result ≡ place_told text.now number.now layers.now }
{
    if lacks_place(message_of(text)) {
        ErrorLocation {
            node: None,
            card: None,
            module: None,
        }
    } else {
        driver_place(number, layers)
    }
}

// Returns whether a driver says by this message that it doesn't know an error's place.
pub(crate) fn lacks_place(message: &[u8]) -> bool
    ensures { result ≡ lacks_place message.now }
{
    message.starts_with(b"Failed to map error addr to a node")
        || message.starts_with(b"MCA_SYND not valid")
}

// Returns the driver's message in an event's text.
fn message_of(text: &[u8]) -> &[u8]
    ensures { result.now ≡ message_of text.now }
{
    let (_, told) = cut(b' ', text);
    let (_, named) = cut(b' ', told);
    match value_after(b"error: ", named) {
        Some(message) => before_on(message),
        None => b"",
    }
}

// Returns a text's part before the first ` on `, or all of it if there is none.
fn before_on(text: &[u8]) -> &[u8]
    ensures { result.now ≡ before_on text.now }
{
    match place_of(b" on ", text) {
        Some(place) => &text[..place],
        None => text,
    }
}

// Returns where an error is, by the memory controller's number and the numbers of its layers.
fn driver_place(number: &[u8], layers: &[u8]) -> ErrorLocation
    ensures { result ≡ driver_place number.now layers.now }
{
    let (top, rest) = cut(b':', layers);
    let (middle, _) = cut(b':', rest);
    ErrorLocation {
        node: number_of(number),
        card: number_of(top),
        module: number_of(middle),
    }
}

// Returns the value of a decimal number, if it fits into a field of a location.
fn number_of(word: &[u8]) -> Option<u16>
    ensures { result ≡ decimal_of 65535 word.now }
{
    Some(decimal(word, u64::from(u16::MAX))? as u16)
}
