//! Laws: what kernels print is read.

ghost use Rattle.std.specs.Prelude.{◌≡◌, ℕ, ◌<◌, ◌≤◌, ◌^◌, ◌∷◌, ◌++◌, [], List, codes, length};
ghost use Rattle.std.specs.Prelude.{replicate, slice_index, true, Some};
ghost use Rattle.std.specs.Char.{is_digit};
ghost use Rattle.bank_lines.specs.TraceEvent.{event_in};
ghost use Rattle.bank_lines.specs.Kernel.{Form, IsPrinted, Printed, event_text};
ghost use Rattle.bank_lines.specs.LogKernel.{HasNo};
ghost use Rattle.bank_lines.specs.Trace.{event_found, event_mark, is_traced, trace_found};
ghost use Rattle.bank_lines.specs.TraceHeads.{IsFront, Tracer, head_of, pipe_front};
ghost use Rattle.bank_lines.specs.declared.stamp.TheConstants.{MOST_SECONDS};

/// The text of an event, in each form in which kernels print it and after any number of spaces, is
/// read as that event. A line is read as the event too, if this text follows the event name, and
/// the text that tracers print comes before the name.
/// The body is empty: the clauses are the point.
pub fn printed_events_are_read()
    ensures text { (form : Form) (p : Printed) (spaces : ℕ) → IsPrinted p
        → event_in (replicate spaces 32 ++ event_text form p) ≡ Some p.event }
    ensures line { (boot : ℕ) (before : List ℕ) (form : Form) (p : Printed) (spaces : ℕ)
        → IsPrinted p → is_traced before ≡ true
        → trace_found boot (before ++ (event_mark ++ (replicate spaces 32 ++ event_text form p)))
        ≡ event_found boot p.event }
{}

/// The text that tracers print before an event's text is recognized as theirs.
/// The body is empty: the clauses are the point.
pub fn heads_are_traced()
    ensures traced { (tracer : Tracer) (front : List ℕ) (seconds micros spaces : ℕ)
        → IsFront front seconds micros
        → is_traced (head_of tracer front seconds micros spaces) ≡ true }
    // The text that trace_pipe prints there is recognized, whatever the at most 15 bytes of a
    // process's name are.
    ensures names { (name rest : List ℕ) (process seconds micros : ℕ) → length name ≤ 15
        → process < 2 ^ 64 → HasNo (codes ": ") (rest ++ 32 ∷ []) → seconds ≤ MOST_SECONDS
        → micros < 1000000 → IsFront (pipe_front name process rest) seconds micros }
{}

/// Whether tracers print a text before an event doesn't depend on the name in its first 16 columns.
/// So no process can pass for an event by its name.
/// The body is empty: the clause is the point.
pub fn names_make_no_event()
    ensures { (name other rest : List ℕ) → length name ≡ 16 → length other ≡ 16
        → is_digit (slice_index rest 0) 10 ≡ true
        → is_traced (name ++ 45 ∷ rest) ≡ is_traced (other ++ 45 ∷ rest) }
{}
