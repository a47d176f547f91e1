//! Laws on what the filter reads and makes.

ghost use Rattle.std.specs.Prelude.{◌≡◌, ◌+◌, ◌*◌, ◌<◌, ◌≤◌, ◌^◌, ℕ, List, [], ◌∷◌, ◌++◌, codes};
ghost use Rattle.std.specs.Prelude.{length, nat_eq, slice_index, Option, None, Some, Ok, false, true};
ghost use Rattle.std.specs.Char.{is_digit};
ghost use Rattle.std.specs.List.{AllByRecursion, ends_with};
ghost use Rattle.apei_sources.specs.Blocks.{block_of};
ghost use Rattle.apei_sources.specs.Entries.{entry_data, entry_guid, entry_severity};
ghost use Rattle.cper_pcie.specs.Section.{pcie_guid, pcie_of};
ghost use Rattle.cper_sections.specs.Sections.{section_of};
ghost use Rattle.cper_sections.specs.declared.sections.Section.TheVariants as sections;
ghost use Rattle.ras_facts.specs.Names.{same_name};
ghost use Rattle.ras_script.specs.Line.{line_of};
ghost use Rattle.ras_script.specs.LineLaws.{line_text};
ghost use Rattle.bank_lines.specs.LogHeads.{mark_place};
ghost use Rattle.bank_lines.specs.TraceHeads.{IsFront, Tracer};
ghost use Rattle.bank_lines.specs.declared.log_line.TheConstants.{LAST_SECOND};
ghost use Rattle.bank_lines.specs.declared.stamp.TheConstants.{MOST_SECONDS};
ghost use Rattle.block_lines.specs.Blocks.{error_entry_bytes, made_status};
ghost use Rattle.block_lines.specs.Filter.{block_filter};
ghost use Rattle.block_lines.specs.ReadBack.{IsError};
ghost use Rattle.block_lines.specs.declared.memory.MemoryError.{MemoryError};
ghost use Rattle.event_lines.specs.Aer.{aer_event_of, cper_severity};
ghost use Rattle.event_lines.specs.Filter.{event_block, memory_block, report_filter};
ghost use Rattle.event_lines.specs.Kernel.{EventKind, IsEvent, PrintedAer, aer_line, aer_text, event_head, event_of};
ghost use Rattle.event_lines.specs.Kernel.{kind_name};
ghost use Rattle.event_lines.specs.Memory.{behind_controller, firmware_mark};
ghost use Rattle.event_lines.specs.MemoryKernel.{IsExtlog, IsMemory, PrintedExtlog, PrintedMemory, error_of_extlog};
ghost use Rattle.event_lines.specs.MemoryKernel.{error_of_memory, extlog_line, memory_line};
ghost use Rattle.event_lines.specs.PcieBytes.{pcie_section_bytes};
ghost use Rattle.event_lines.specs.ReadBack.{event_asked, event_entry, event_name, memory_asked, memory_name};
ghost use Rattle.event_lines.specs.ReadBack.{section_told};
ghost use Rattle.event_lines.specs.SectionEvent.{section_bytes_of};
ghost use Rattle.event_lines.specs.SectionKernel.{IsSection, PrintedSection, head_of_section, section_line};
ghost use Rattle.event_lines.specs.Traced.{controller_event, line_event_of};
ghost use Rattle.event_lines.specs.declared.aer.AerEvent.{AerEvent};
ghost use Rattle.event_lines.specs.declared.traced.FoundEvent.{FoundEvent};
ghost use Rattle.event_lines.specs.declared.traced.FoundMemory.{FoundMemory};
ghost use Rattle.event_lines.specs.declared.traced.LineEvent.TheVariants.{Absent, Found, Memory, Section, Unread};

/// The event of a PCI Express error, as the kernel prints it, is read as that event, whichever bits
/// of the status are set. This holds of the event's text, and of its line, with the text that each
/// tracer prints before the event and the line's time stamp.
pub fn printed_events_are_read()
    ensures text { (p : PrintedAer) → IsEvent (event_of p)
        → aer_event_of (aer_text p) ≡ Some (event_of p) }
    ensures line { (tracer : Tracer) (front : List ℕ) (seconds micros spaces more : ℕ)
        (p : PrintedAer)
        → IsFront front seconds micros → IsEvent (event_of p)
        → line_event_of (aer_line (event_head tracer front seconds micros spaces) more p)
        ≡ Found (record { stamp = 1000000 * seconds + micros; event = event_of p }) }

    // The event of a section is read: its head and its bytes, whatever the text of its unit is.
    ensures section { (tracer : Tracer) (front : List ℕ) (seconds micros spaces more : ℕ)
        (p : PrintedSection) → IsFront front seconds micros → IsSection p
        → line_event_of (section_line (event_head tracer front seconds micros spaces) more p)
        ≡ Section (record { stamp = 1000000 * seconds + micros; head = head_of_section p }) }
    ensures bytes { (tracer : Tracer) (front : List ℕ) (seconds micros spaces more : ℕ)
        (p : PrintedSection) → IsFront front seconds micros → IsSection p
        → section_bytes_of (head_of_section p)
        (section_line (event_head tracer front seconds micros spaces) more p) ≡ Some p.bytes }

    // The memory errors that the firmware reported are read, whatever the label of a module and the
    // text of a unit are.
    ensures memory { (tracer : Tracer) (front : List ℕ) (seconds micros spaces more : ℕ)
        (p : PrintedMemory) → IsFront front seconds micros → IsMemory p
        → line_event_of (memory_line (event_head tracer front seconds micros spaces) more p)
        ≡ Memory (record { stamp = 1000000 * seconds + micros; error = error_of_memory p }) }
    ensures extlog { (tracer : Tracer) (front : List ℕ) (seconds micros spaces more : ℕ)
        (p : PrintedExtlog) → IsFront front seconds micros → IsExtlog p
        → line_event_of (extlog_line (event_head tracer front seconds micros spaces) more p)
        ≡ Memory (record { stamp = 1000000 * seconds + micros; error = error_of_extlog p }) }
{}

/// No event is skipped: a line that has an event's name after a clock has an event, or is unread.
/// This holds whatever comes before the clock, such as the name of a process, and whatever the
/// event's text is. Of a memory controller's events it holds of those with the name of the
/// firmware's detail after the last ` (mc:`.
pub fn events_are_never_passed_over()
    ensures named { (kind : EventKind) (tracer : Tracer) (front text : List ℕ)
        (seconds micros spaces : ℕ) → seconds ≤ MOST_SECONDS → micros < 1000000
        → ¬ (line_event_of (event_head tracer front seconds micros spaces
        ++ (kind_name kind ++ 32 ∷ text)) ≡ Absent) }
    ensures memory { (tracer : Tracer) (front told inside : List ℕ) (seconds micros spaces : ℕ)
        → seconds ≤ MOST_SECONDS → micros < 1000000 → behind_controller inside ≡ None
        → ¬ (mark_place firmware_mark inside ≡ None)
        → ¬ (line_event_of (event_head tracer front seconds micros spaces
        ++ (codes "mc_event:" ++ 32 ∷ (told ++ (codes " (mc:" ++ inside)))) ≡ Absent) }

    // Which event a line has doesn't depend on the name of a process in its 16 columns. So no
    // process makes or hides an event by its name.
    ensures names { (name other rest : List ℕ) → length name ≡ 16 → length other ≡ 16
        → is_digit (slice_index rest 0) 10 ≡ true
        → line_event_of (name ++ 45 ∷ rest) ≡ line_event_of (other ++ 45 ∷ rest) }
{}

/// Another driver's event of a memory controller, which lacks the name of the firmware's detail,
/// says nothing, whatever comes before its last ` (mc:`. An event that was cut off before the
/// parenthesis at its end is unread.
pub fn other_controller_events_are_no_errors()
    ensures driver { (stamp : Option ℕ) (front controller : List ℕ)
        → behind_controller controller ≡ None → mark_place firmware_mark controller ≡ None
        → controller_event stamp ((front ++ (codes " (mc:" ++ controller)) ++ codes ")") ≡ Absent }
    ensures cut { (stamp : Option ℕ) (text : List ℕ) → ends_with nat_eq text (codes ")") ≡ false
        → controller_event stamp text ≡ Unread }
{}

/// An event's section is read back as its function and its status, its block as one entry with its
/// severity and this section, its line as a report of this block.
pub fn made_sections_are_read_back()
    ensures section { (event : AerEvent) → IsEvent event
        → pcie_of (pcie_section_bytes event) ≡ Ok (section_told event) }
    ensures entry { (event : AerEvent) → (entry_guid (event_entry event) ≡ pcie_guid)
        × (entry_severity (event_entry event) ≡ cper_severity event.severity)
        × (entry_data (event_entry event) ≡ pcie_section_bytes event) }
    ensures block { (event : AerEvent) → block_of (event_block event) ≡ Ok (record {
      status = made_status (cper_severity event.severity) 1;
      entries = event_entry event ∷ [];
    }) }
    ensures line { (boot began : ℕ) (found : FoundEvent) → boot < 2 ^ 64 → began ≤ LAST_SECOND
        → found.stamp < 2 ^ 64 → IsEvent found.event
        → line_of (line_text (event_asked boot began found)) ≡ Ok (event_asked boot began found) }
    // Two events with different time stamps have different names.
    ensures names { (boot : ℕ) (one other : FoundEvent) → ¬ (one.stamp ≡ other.stamp)
        → same_name (event_name boot one) (event_name boot other) ≡ false }
{}

/// A memory error's block is read back as one entry with the error's severity and a memory section
/// of its address, mask, location and type, its line as a report of this block.
pub fn made_memory_blocks_are_read_back()
    ensures block { (error : MemoryError) → IsError error
        → block_of (memory_block error) ≡ Ok (record {
          status = made_status error.severity 1;
          entries = error_entry_bytes error ∷ [];
        }) }
    ensures entry { (error : MemoryError) → IsError error
        → (entry_severity (error_entry_bytes error) ≡ error.severity)
        × (section_of (entry_guid (error_entry_bytes error)) (entry_data (error_entry_bytes error))
        ≡ Ok (sections.Memory (record {
          physical = error.physical;
          mask = error.mask;
          node = error.location.node;
          card = error.location.card;
          «module» = error.location.«module»;
          bank = None;
          row = None;
          rank = None;
          kind = error.kind;
        }))) }
    ensures line { (boot began : ℕ) (found : FoundMemory) → boot < 2 ^ 64 → began ≤ LAST_SECOND
        → found.stamp < 2 ^ 64 → IsError found.error
        → line_of (line_text (memory_asked boot began found)) ≡ Ok (memory_asked boot began found) }
    // Two errors with different time stamps have different names.
    ensures names { (boot : ℕ) (one other : FoundMemory) → ¬ (one.stamp ≡ other.stamp)
        → same_name (memory_name boot one) (memory_name boot other) ≡ false }
{}

/// Over lines without an event the filter prints what the filter of the log prints.
pub fn logs_are_filtered_as_before()
    ensures answers { (boot began : ℕ) (lines : List (List ℕ))
        → AllByRecursion (λ line. line_event_of line ≡ Absent) lines
        → (report_filter boot began).answers lines ≡ (block_filter boot began).answers lines }
    ensures rest { (boot began : ℕ) (lines : List (List ℕ))
        → AllByRecursion (λ line. line_event_of line ≡ Absent) lines
        → (report_filter boot began).rest lines ≡ (block_filter boot began).rest lines }
    ensures last { (boot began : ℕ) (lines : List (List ℕ))
        → (report_filter boot began).last lines ≡ (block_filter boot began).last lines }
{}
