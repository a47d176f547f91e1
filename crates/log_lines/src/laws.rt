//! What holds of all texts of the filters.

ghost use Rattle.std.specs.Prelude.{◌≡◌, ◌+◌, ◌/◌, ◌<◌, ◌^◌, ◌∷◌, ◌++◌, [], ℕ, Bool, List, None, Option, length, map, true};
ghost use Rattle.std.specs.List.{AllByRecursion, flat_map};
ghost use Rattle.bank_lines.specs.Counts.{all_named};
ghost use Rattle.bank_lines.specs.Filter.{traced_reports};
ghost use Rattle.bank_lines.specs.Finding.{report_in};
ghost use Rattle.bank_lines.specs.LogFilter.{log_filter};
ghost use Rattle.bank_lines.specs.Texts.{found_text};
ghost use Rattle.bank_lines.specs.declared.found.Finding.{Finding};
ghost use Rattle.bank_lines.specs.declared.log_line.TheConstants.{MICROSECONDS};
ghost use Rattle.block_lines.specs.LogLines.{report_log_line};
ghost use Rattle.block_lines.specs.Reports.{Reporting, has_error, without_sources};
ghost use Rattle.block_lines.specs.Texts.{block_text, blocks_text_at, blocks_text_beside, ghes_line, hest_line, source_block_text};
ghost use Rattle.block_lines.specs.Whole.{AreWholeLines};
ghost use Rattle.block_lines.specs.declared.report.OpenReport.{OpenReport};
ghost use Rattle.event_lines.specs.Events.{tells_any, tells_event};
ghost use Rattle.line_filters.specs.Pieces.{AreShort};
ghost use Rattle.ras_script.specs.Inputs.{Input, line};
ghost use Rattle.ras_script.specs.LineLaws.{line_text};
ghost use Rattle.ras_script.specs.declared.line.ErrorReport.TheVariants.{Block};
ghost use Rattle.ras_script.specs.declared.line.Line.TheVariants.{Report};
ghost use Rattle.log_lines.specs.Borders.{LeavesCheck, LeavesReport, check_said, no_borders};
ghost use Rattle.log_lines.specs.LogFeed.{LogFeedState, answer, log_checks, log_feed, log_found};
ghost use Rattle.log_lines.specs.LogFeed.{log_said, log_start};
ghost use Rattle.log_lines.specs.LogWithDimms.{log_with_dimms};
ghost use Rattle.log_lines.specs.declared.borders.Borders.{Borders};
ghost use Rattle.log_lines.specs.TraceFeed.{TraceFeedState, is_gap, trace_begun, trace_checks, trace_feed};
ghost use Rattle.log_lines.specs.TraceFeed.{trace_text, with_cap};
ghost use Rattle.log_lines.specs.TraceWithDimms.{trace_with_dimms};

/// One call can print the text of each of the first inputs, of which there are 2^64.
pub fn texts_are_short()
    ensures trace { (boot cap began : ℕ) (drivers : Bool) (inputs : List Input)
        → length inputs < 2 ^ 64 → AreShort ((trace_feed boot cap began drivers).texts inputs) }
    ensures log { (boot cap began : ℕ) (borders : Borders) (inputs : List Input)
        → length inputs < 2 ^ 64 → AreShort ((log_feed boot cap began borders).texts inputs) }
    ensures trace_dimms { (boot cap began : ℕ) (drivers : Bool) (inputs : List Input)
        → length inputs < 2 ^ 64
        → AreShort ((trace_with_dimms boot cap began drivers).texts inputs) }
    ensures log_dimms { (boot cap began : ℕ) (borders : Borders) (inputs : List Input)
        → length inputs < 2 ^ 64
        → AreShort ((log_with_dimms boot cap began borders).texts inputs) }
{}

/// Each text is whole lines or nothing, and so is the text at the end.
pub fn texts_are_whole()
    ensures trace { (boot cap began : ℕ) (drivers : Bool) (inputs : List Input)
        → AllByRecursion AreWholeLines ((trace_feed boot cap began drivers).texts inputs) }
    ensures trace_end { (boot cap began : ℕ) (drivers : Bool) (inputs : List Input) (cut : Bool)
        → AreWholeLines ((trace_feed boot cap began drivers).last inputs cut) }
    ensures log { (boot cap began : ℕ) (borders : Borders) (inputs : List Input)
        → AllByRecursion AreWholeLines ((log_feed boot cap began borders).texts inputs) }
    ensures log_end { (boot cap began : ℕ) (borders : Borders) (inputs : List Input) (cut : Bool)
        → AreWholeLines ((log_feed boot cap began borders).last inputs cut) }
{}

/// With ranges between them, each text is whole lines or nothing, and so is the text at the end.
pub fn texts_with_dimms_are_whole()
    ensures trace { (boot cap began : ℕ) (drivers : Bool) (inputs : List Input)
        → AllByRecursion AreWholeLines ((trace_with_dimms boot cap began drivers).texts inputs) }
    ensures trace_end { (boot cap began : ℕ) (drivers : Bool) (inputs : List Input) (cut : Bool)
        → AreWholeLines ((trace_with_dimms boot cap began drivers).last inputs cut) }
    ensures log { (boot cap began : ℕ) (borders : Borders) (inputs : List Input)
        → AllByRecursion AreWholeLines ((log_with_dimms boot cap began borders).texts inputs) }
    ensures log_end { (boot cap began : ℕ) (borders : Borders) (inputs : List Input) (cut : Bool)
        → AreWholeLines ((log_with_dimms boot cap began borders).last inputs cut) }
{}

/// A line of a trace has a text if it has an event's name behind a clock, whether the event can be
/// read or not, and if it says that events are missing. If all drivers' events are read, so has a line
/// with one of these.
pub fn events_are_never_left_unsaid()
    ensures event { (state : TraceFeedState) (bytes : List ℕ) → tells_event bytes ≡ true
        → ¬ (trace_text state (line bytes) ≡ []) }
    ensures driver { (state : TraceFeedState) (bytes : List ℕ)
        → tells_any state.drivers bytes ≡ true → ¬ (trace_text state (line bytes) ≡ []) }
    ensures gap { (state : TraceFeedState) (bytes : List ℕ) → is_gap bytes ≡ true
        → ¬ (trace_text state (line bytes) ≡ []) }
{}

/// What is said of machine checks is what the readers find that the commands over a part of a trace
/// or a log use: of a trace the reports of its lines, in order, each with a counter, and of a log
/// line by line the same text, unless a trace has machine checks too.
pub fn machine_checks_are_named_alike()
    ensures trace { (boot cap began : ℕ) (drivers : Bool) (lines : List (List ℕ))
        → flat_map report_in (trace_checks (trace_begun boot cap began drivers) lines)
        ≡ all_named (map (with_cap cap) (traced_reports boot lines)) }
    ensures log { (boot cap began : ℕ) (borders : Borders) (lines : List (List ℕ))
        → borders.checks ≡ None
        → map answer (log_checks (log_start boot cap began borders) lines)
        ≡ (log_filter boot cap).answers lines }
{}

/// Each block stands right behind a table of its one source, whatever was printed before: the filters
/// forget the last table before each line. So a run accepts the blocks of two filters whose texts
/// come in any order.
pub fn blocks_bring_their_tables()
    ensures event { (r : Reporting) (source number : ℕ) (block : List ℕ)
        → source_block_text (without_sources r) source number block
        ≡ (hest_line (source ∷ []) ++ 10 ∷ []) ++ line_text (Report
        (Block r.boot (r.began + number / MICROSECONDS) source number block)) ++ 10 ∷ [] }
    ensures report { (r : Reporting) (report : OpenReport)
        → has_error r.errors report.section ≡ true
        → block_text (without_sources r) report
        ≡ (hest_line (report.source ∷ []) ++ 10 ∷ []) ++ ghes_line r report ++ 10 ∷ [] }
{}

/// What a log leaves to a trace: without borders nothing. With borders, if a text isn't the text
/// without them, it lacks the line `bank` of a machine check that lost its address, in a line at the
/// border or behind it, and nothing else; or the block and the table of a report of the firmware that
/// began at the border or behind it and isn't fatal, and nothing else.
pub fn only_what_a_trace_has_is_left_out()
    ensures none { (state : LogFeedState) (bytes : List ℕ) → state.borders ≡ no_borders
        → log_said state bytes ≡ log_found state bytes }
    ensures check { (border : Option ℕ) (number : ℕ) (bytes : List ℕ) (found : Finding)
        → ¬ (check_said border number bytes found ≡ found_text number found)
        → LeavesCheck border number bytes found }
    ensures report { (border : Option ℕ) (r : Reporting) (number : ℕ) (bytes : List ℕ)
        → ¬ (blocks_text_beside border r number (report_log_line bytes)
        ≡ blocks_text_at r number (report_log_line bytes))
        → LeavesReport border r number bytes }
{}
