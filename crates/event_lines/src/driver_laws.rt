//! Laws on the events that the kernel's EDAC drivers made.

ghost use Rattle.std.specs.Prelude.{◌≡◌, ◌+◌, ◌*◌, ◌<◌, ◌≤◌, ℕ, Bool, List, ◌∷◌, ◌++◌, codes, length, slice_index, true, None};
ghost use Rattle.std.specs.Char.{is_digit};
ghost use Rattle.bank_lines.specs.LogHeads.{mark_place};
ghost use Rattle.bank_lines.specs.TraceHeads.{IsFront, Tracer};
ghost use Rattle.bank_lines.specs.declared.stamp.TheConstants.{MOST_SECONDS};
ghost use Rattle.event_lines.specs.DimmTold.{dimm_of_driver, spaced_message, traced_dimm_of};
ghost use Rattle.event_lines.specs.Driver.{any_event_of};
ghost use Rattle.event_lines.specs.DriverKernel.{IsDriver, PrintedDriver, driver_line, error_of_driver};
ghost use Rattle.event_lines.specs.Kernel.{event_head};
ghost use Rattle.event_lines.specs.Traced.{line_event_of};
ghost use Rattle.event_lines.specs.declared.traced.LineEvent.TheVariants.{Absent, Memory, Unread};

/// The memory error of a driver's event, as the kernel prints it, is read, with the time stamp of its
/// line, whatever the label of the module is, and with the number of the memory controller and of its
/// two upper layers as its place.
pub fn driver_events_are_read()
    ensures { (tracer : Tracer) (front : List ℕ) (seconds micros spaces more : ℕ)
        (p : PrintedDriver) → IsFront front seconds micros → IsDriver p
        → any_event_of true (driver_line (event_head tracer front seconds micros spaces) more p)
        ≡ Memory (record { stamp = 1000000 * seconds + micros; error = error_of_driver p }) }
{}

/// With the drivers' events no event of a memory controller is skipped, whoever made it and whatever
/// its text is, and no line with another event. An event that is read without them is read as the
/// same event.
pub fn driver_events_are_never_passed_over()
    ensures named { (tracer : Tracer) (front text : List ℕ) (seconds micros spaces : ℕ)
        → seconds ≤ MOST_SECONDS → micros < 1000000
        → ¬ (any_event_of true (event_head tracer front seconds micros spaces
        ++ (codes "mc_event:" ++ 32 ∷ text)) ≡ Absent) }
    ensures others { (drivers : Bool) (line : List ℕ) → ¬ (line_event_of line ≡ Absent)
        → ¬ (any_event_of drivers line ≡ Absent) }
    ensures same { (drivers : Bool) (line : List ℕ) → ¬ (line_event_of line ≡ Absent)
        → ¬ (line_event_of line ≡ Unread) → any_event_of drivers line ≡ line_event_of line }

    // Which event a line has doesn't depend on the name of a process in its 16 columns.
    ensures names { (drivers : Bool) (name other rest : List ℕ) → length name ≡ 16
        → length other ≡ 16 → is_digit (slice_index rest 0) 10 ≡ true
        → any_event_of drivers (name ++ 45 ∷ rest) ≡ any_event_of drivers (other ++ 45 ∷ rest) }
{}

/// The address and the label of the DIMM in a driver's event, as the kernel prints it, are read,
/// whatever the label is. Nothing is read if the event has no address, or if the driver says by its
/// message that it doesn't know the place. The message mustn't begin with `on`: the kernel prints
/// such a message and a label just as it prints an empty message and a longer label.
pub fn printed_dimms_are_told()
    ensures { (tracer : Tracer) (front : List ℕ) (seconds micros spaces more : ℕ)
        (p : PrintedDriver) → IsFront front seconds micros → IsDriver p
        → mark_place (codes " on") (spaced_message p) ≡ None
        → traced_dimm_of (driver_line (event_head tracer front seconds micros spaces) more p)
        ≡ dimm_of_driver p }
{}
