//! A law: the records that Linux saves are read, and get the names that Linux's trace and log give.

ghost use Rattle.std.specs.Prelude.{◌≡◌, ℕ, [], ◌++◌, List, replicate, true, Some};
ghost use Rattle.bank_lines.specs.Counts.{named_found};
ghost use Rattle.bank_lines.specs.Kernel.{Form, IsPrinted, Printed, event_text};
ghost use Rattle.bank_lines.specs.Naming.{named_first};
ghost use Rattle.bank_lines.specs.Trace.{event_mark, is_traced, trace_found};
ghost use Rattle.bank_lines.specs.declared.event.TraceEvent.{TraceEvent};
ghost use Rattle.ras_facts.specs.Facts.{bank_name};
ghost use Rattle.ras_klog.specs.Groups.{bank_of_group};
ghost use Rattle.bank_lines.specs.Saved.Layout.{IsSaved, Saved, Version, saved_bytes, saved_event};
ghost use Rattle.bank_lines.specs.Saved.Records.{record_found, saved_report};

use crate::printed_events_are_read;

/// Each version of the struct in which the kernel saves a machine check is read. The record gives
/// the event that the kernel traces with the same registers. Its report has the name that a log's
/// report has, if each is the first with its key. The clauses are the point of this function.
pub fn records_are_read()
    ensures bytes { (version : Version) (s : Saved) → IsSaved s
        → saved_event (saved_bytes version s) ≡ Some s.event }
    ensures trace { (boot : ℕ) (before : List ℕ) (form : Form) (p : Printed) (spaces : ℕ)
        → IsPrinted p → is_traced before ≡ true
        → record_found boot p.event ≡ named_found []
        (trace_found boot (before ++ (event_mark ++ (replicate spaces 32 ++ event_text form p)))) }
    ensures log { (boot cap : ℕ) (e : TraceEvent) → bank_name (saved_report boot e)
        ≡ bank_name (named_first (bank_of_group boot cap
        (record { cpu = e.cpu; mcg = e.mcg; bank = e.bank; status = e.status })
        e.tsc e.addr e.misc e.seconds)) }
{
    printed_events_are_read();
}
