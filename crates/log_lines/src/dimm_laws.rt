//! What holds of the ranges that the filters print, and of the texts between them.

ghost use Rattle.std.specs.Prelude.{◌≡◌, ◌<◌, ◌≤◌, ℕ, Bool, List, [], length};
ghost use Rattle.std.specs.List.{AllByRecursion};
ghost use Rattle.line_filters.specs.declared.feeding.TheConstants.{MOST_INPUTS};
ghost use Rattle.ras_script.specs.Inputs.{Input, line};
ghost use Rattle.log_lines.specs.DimmLaws.{AreApart, ChangesNoError, HasNoSlot, IsToldRange, log_parts};
ghost use Rattle.log_lines.specs.DimmLaws.{told_ranges, said_in_log, said_in_trace, trace_parts};
ghost use Rattle.log_lines.specs.LogFeed.{log_feed};
ghost use Rattle.log_lines.specs.LogWithDimms.{LogDimmsState, log_dimms_after, log_with_dimms};
ghost use Rattle.log_lines.specs.TraceFeed.{trace_feed};
ghost use Rattle.log_lines.specs.TraceWithDimms.{TraceDimmsState, trace_dimms_after, trace_with_dimms};
ghost use Rattle.log_lines.specs.declared.borders.Borders.{Borders};

/// Nothing but ranges comes between the texts of the feed, and each text is printed once: with the
/// text that waits before it, or later, if it waits itself. A text comes before one that waits only
/// if one call can't print both with a range. At the end what still waits comes before the last text.
pub fn dimms_change_no_error()
    ensures trace { (boot cap began : ℕ) (drivers : Bool) (inputs : List Input) (cut : Bool)
        → length inputs < MOST_INPUTS
        → ChangesNoError ((trace_feed boot cap began drivers).texts inputs)
        ((trace_feed boot cap began drivers).last inputs cut)
        (trace_parts boot cap began drivers inputs)
        ((trace_with_dimms boot cap began drivers).texts inputs)
        ((trace_with_dimms boot cap began drivers).last inputs cut) }
    ensures log { (boot cap began : ℕ) (borders : Borders) (inputs : List Input) (cut : Bool)
        → length inputs < MOST_INPUTS
        → ChangesNoError ((log_feed boot cap began borders).texts inputs)
        ((log_feed boot cap began borders).last inputs cut)
        (log_parts boot cap began borders inputs)
        ((log_with_dimms boot cap began borders).texts inputs)
        ((log_with_dimms boot cap began borders).last inputs cut) }
{}

/// If no line describes a slot, the texts are the feed's, word for word.
pub fn without_slots_nothing_changes()
    ensures trace { (boot cap began : ℕ) (drivers : Bool) (inputs : List Input)
        → AllByRecursion HasNoSlot inputs
        → (trace_with_dimms boot cap began drivers).texts inputs
        ≡ (trace_feed boot cap began drivers).texts inputs }
    ensures trace_end { (boot cap began : ℕ) (drivers : Bool) (inputs : List Input) (cut : Bool)
        → AllByRecursion HasNoSlot inputs
        → (trace_with_dimms boot cap began drivers).last inputs cut
        ≡ (trace_feed boot cap began drivers).last inputs cut }
    ensures log { (boot cap began : ℕ) (borders : Borders) (inputs : List Input)
        → AllByRecursion HasNoSlot inputs
        → (log_with_dimms boot cap began borders).texts inputs
        ≡ (log_feed boot cap began borders).texts inputs }
    ensures log_end { (boot cap began : ℕ) (borders : Borders) (inputs : List Input) (cut : Bool)
        → AllByRecursion HasNoSlot inputs
        → (log_with_dimms boot cap began borders).last inputs cut
        ≡ (log_feed boot cap began borders).last inputs cut }
{}

/// Each range is of an address and a label that a line told, and has the name of a slot with this
/// label.
pub fn ranges_are_told()
    ensures trace { (boot cap began : ℕ) (drivers : Bool) (inputs : List Input)
        → AllByRecursion (IsToldRange (said_in_trace boot cap began drivers inputs))
        (told_ranges (trace_parts boot cap began drivers inputs)) }
    ensures log { (boot cap began : ℕ) (borders : Borders) (inputs : List Input)
        → AllByRecursion (IsToldRange (said_in_log boot cap began borders inputs))
        (told_ranges (log_parts boot cap began borders inputs)) }
{}

/// No two ranges of a filter have an address in common, and there are at most 1,500.
pub fn ranges_are_few()
    ensures trace { (boot cap began : ℕ) (drivers : Bool) (inputs : List Input)
        → AreApart (told_ranges (trace_parts boot cap began drivers inputs)) }
    ensures trace_count { (boot cap began : ℕ) (drivers : Bool) (inputs : List Input)
        → length (told_ranges (trace_parts boot cap began drivers inputs)) ≤ 1500 }
    ensures log { (boot cap began : ℕ) (borders : Borders) (inputs : List Input)
        → AreApart (told_ranges (log_parts boot cap began borders inputs)) }
    ensures log_count { (boot cap began : ℕ) (borders : Borders) (inputs : List Input)
        → length (told_ranges (log_parts boot cap began borders inputs)) ≤ 1500 }
{}

/// After an empty line nothing waits. What waits has at most 512 bytes: that holds at the start, and
/// every input keeps it.
pub fn nothing_waits_after_an_empty_line()
    ensures trace { (state : TraceDimmsState) → length state.dimms.held ≤ 512
        → (trace_dimms_after state (line [])).dimms.held ≡ [] }
    ensures trace_keeps { (state : TraceDimmsState) (input : Input) → length state.dimms.held ≤ 512
        → length (trace_dimms_after state input).dimms.held ≤ 512 }
    ensures log { (state : LogDimmsState) → length state.dimms.held ≤ 512
        → (log_dimms_after state (line [])).dimms.held ≡ [] }
    ensures log_keeps { (state : LogDimmsState) (input : Input) → length state.dimms.held ≤ 512
        → length (log_dimms_after state input).dimms.held ≤ 512 }
{}
