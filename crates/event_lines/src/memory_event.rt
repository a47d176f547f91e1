//! Reads the texts of the events `mc_event` and `extlog_mem_event`, memory errors that the firmware
//! reported.

ghost use Rattle.std.specs.Prelude.{◌≡◌, ◌+◌, ◌<◌, ◌≤◌, length, IfSome};
ghost use Rattle.std.specs.Option.{option_map};
ghost use Rattle.bank_lines.specs.LogHeads.{mark_place};
ghost use Rattle.event_lines.specs.Memory.{addressed_error_of, addresses_in, behind_controller, behind_first};
ghost use Rattle.event_lines.specs.Memory.{controller_error_of, controller_of, detail_in, extlog_error_of};
ghost use Rattle.event_lines.specs.Memory.{kind_before, mask_and_location};

use crate::memory_words::{
    address_told, grain_mask, grain_of, kind_named, low_bit_mask, low_bit_of, type_severity,
    whole_address_told,
};
use bank_lines::{cut, value_after};
use block_lines::{ErrorLocation, MemoryError, location_of, severity_of};
use memchr::memmem;
use ras_script::hexadecimal;

// The name of the firmware's detail in an event of a memory controller.
pub(crate) const FIRMWARE_MARK: &[u8] = b"APEI location: ";

// Returns the text in the parentheses of a memory controller's event, if a parenthesis ends the
// event.
pub(crate) fn controller_of(text: &[u8]) -> Option<&[u8]>
    ensures { option_map (λ controller. controller.now) result ≡ controller_of text.now }
{
    behind_controller(text.strip_suffix(b")")?)
}

// Returns the text after the last ` (mc:`.
pub(crate) fn behind_controller(text: &[u8]) -> Option<&[u8]>
    ensures { option_map (λ behind. behind.now) result ≡ behind_controller text.now }
{
    let mut found = None;
    let mut rest = text;
    while let Some(behind) = behind_first(rest) {
        rest = behind;
        found = Some(behind);
    }
    found
}

// Returns the text after the first ` (mc:`.
fn behind_first(text: &[u8]) -> Option<&[u8]>
    ensures behind { option_map (λ behind. behind.now) result ≡ behind_first text.now }
    ensures shorter { IfSome result (λ behind. length behind.now < length text.now) }
{
    let place = place_of(b" (mc:", text)?;
    Some(&text[place + 5..])
}

// Returns the text in an event's parentheses, from the address on.
pub(crate) fn addresses_in(controller: &[u8]) -> &[u8]
    ensures { result.now ≡ addresses_in controller.now }
{
    let (_, layers) = cut(b' ', controller);
    cut(b' ', layers).1
}

// Returns the driver's detail from the text in an event's parentheses.
pub(crate) fn detail_in(controller: &[u8]) -> &[u8]
    ensures { result.now ≡ detail_in controller.now }
{
    let (_, grain) = cut(b' ', addresses_in(controller));
    let (_, syndrome) = cut(b' ', grain);
    cut(b' ', syndrome).1
}

// Returns the error of an event that the firmware's driver made, if it can be read from the text,
// the text in the parentheses, and the detail after its name.
pub(crate) fn controller_error(text: &[u8], controller: &[u8], places: &[u8]) -> Option<MemoryError>
    ensures { result ≡ controller_error_of text.now controller.now places.now }
{
    let (severity, rest) = cut(b' ', value_after(b"1 ", text)?);
    let message = value_after(b"error: ", rest)?;
    let (address, rest) = cut(b' ', addresses_in(controller));
    let address = hexadecimal(value_after(b"address:0x", address)?)?;
    let (grain, _) = cut(b' ', rest);
    let grain = grain_of(value_after(b"grain:", grain)?)?;
    Some(MemoryError {
        severity: type_severity(severity),
        physical: address_told(address),
        mask: grain_mask(grain),
        location: location_of(places),
        kind: kind_before(b" on ", message),
    })
}

// Returns the type of error whose name comes before a text, if only one type has this name.
fn kind_before(text: &[u8; 4], message: &[u8]) -> Option<u8>
    ensures { result ≡ kind_before text.now message.now }
{
    let place = place_of(text, message)?;
    kind_named(&message[..place])
}

// Returns the error of the extended log's event, if it can be read.
pub(crate) fn extlog_error(text: &[u8]) -> Option<MemoryError>
    ensures { result ≡ extlog_error_of text.now }
{
    let (_, rest) = cut(b'}', value_after(b"{", text)?);
    let (severity, rest) = cut(b' ', value_after(b" ", rest)?);
    let message = value_after(b"error: ", rest)?;
    let mark = b" physical addr: ";
    let place = place_of(mark, message)?;
    addressed_error(
        severity_of(severity),
        kind_named(&message[..place]),
        &message[place + mark.len()..],
    )
}

// Returns the error with this severity and type, from its address on.
fn addressed_error(severity: u32, kind: Option<u8>, text: &[u8]) -> Option<MemoryError>
    ensures { result ≡ addressed_error_of severity kind text.now }
{
    let (address, masks) = cut(b' ', text);
    let address = hexadecimal(address)?;
    let (mask, location) = mask_and_location(masks)?;
    Some(MemoryError {
        severity,
        physical: whole_address_told(address),
        mask,
        location,
        kind,
    })
}

// Returns which bits of the address are valid, if that is known, and where the error is.
fn mask_and_location(text: &[u8]) -> Option<(Option<u64>, ErrorLocation)>
    ensures { result ≡ mask_and_location text.now }
{
    let (bit, rest) = cut(b')', value_after(b"(mask lsb: ", text)?);
    let bit = low_bit_of(bit)?;
    let places = value_after(b" ", rest)?;
    // A line that was cut off lacks it.
    place_of(b"FRU: ", places)?;
    Some((low_bit_mask(bit), location_of(places)))
}

// Returns the index of the first occurrence of a text in another, as `mark_place` does. The
// compiler inlines `mark_place`, which every line of a trace calls, only while all its calls search
// for one text.
pub(crate) fn place_of(text: &[u8], within: &[u8]) -> Option<usize>
    requires { 0 < length text.now }
    ensures place { result ≡ mark_place text.now within.now }
    ensures fits { IfSome result (λ place. place + length text.now ≤ length within.now) }
{
    memmem::find(within, text)
}
