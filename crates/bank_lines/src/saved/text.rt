//! The line that is printed for a record.

ghost use Rattle.std.specs.Prelude.{◌≡◌, ◌++◌, OnOk};
ghost use Rattle.ras_script.specs.SplittingLaws.{script_of};
ghost use Rattle.std.specs.Prelude.{◌∷◌, []};
ghost use Rattle.bank_lines.specs.Saved.Records.{empty_record, saved_text, record_found, record_text, unread_record};

use crate::event::TraceEvent;
use crate::found::Finding;
use crate::naming::named_first;
use crate::saved::layout::saved_event;
use crate::text::push_found;
use crate::trace::event_report;
use ras_base::{NoMemory, push_number};

/// Appends the line of a record, for an error in this boot: a line `bank` for an Intel processor,
/// and a comment for any other record or for bytes that aren't a record.
///
/// # Errors
///
/// `NoMemory`: only if memory runs out.
pub fn push_record(text: &mut Vec<u8>, boot: u64, bytes: &[u8]) -> Result<(), NoMemory>
    ensures { OnOk result (text.new.items ≡ text.old.items ++ record_text boot bytes.now) }
{
    match saved_event(bytes) {
        Some(event) => push_event(text, boot, event),
        None => push_unread(text, bytes.len()),
    }
}

// Appends the line of an event.
fn push_event(text: &mut Vec<u8>, boot: u64, event: TraceEvent) -> Result<(), NoMemory>
    ensures { OnOk result (text.new.items ≡ text.old.items ++ saved_text boot event) }
{
    match record_found(boot, event) {
        Finding::Nothing => push_empty(text, event),
        found => push_found(text, &found, 0),
    }
}

// Returns the finding of an event: a report gets a counter if it has none.
fn record_found(boot: u64, event: TraceEvent) -> Finding
    ensures { result ≡ record_found boot event }
{
    if event.vendor != 0 {
        return Finding::Foreign {
            vendor: event.vendor,
            cpu: event.cpu,
            bank: event.bank,
        };
    }
    Finding::of_report(named_first(event_report(boot, event)))
}

// Appends the comment of a record whose bank holds no error.
fn push_empty(text: &mut Vec<u8>, event: TraceEvent) -> Result<(), NoMemory>
    ensures { OnOk result (text.new.items ≡ text.old.items ++ script_of (empty_record event ∷ [])) }
{
    text.extend_from_slice(b"# no error cpu=")?;
    push_number(text, u64::from(event.cpu))?;
    text.extend_from_slice(b" bank=")?;
    push_number(text, u64::from(event.bank))?;
    text.push(b'\n')?;
    Ok(())
}

// Appends the comment of bytes that aren't a record, with their number.
fn push_unread(text: &mut Vec<u8>, bytes: usize) -> Result<(), NoMemory>
    ensures { OnOk result (text.new.items ≡ text.old.items ++ script_of (unread_record bytes ∷ [])) }
{
    text.extend_from_slice(b"# unread mce bytes=")?;
    push_number(text, bytes as u64)?;
    text.push(b'\n')?;
    Ok(())
}
