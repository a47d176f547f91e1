//! How many lines of a text say that an event is done.

ghost use Rattle.std.specs.Prelude.{◌≡◌, ◌≤◌, ◌+◌, ◌++◌, ℕ, List, length, All};
ghost use Rattle.ras_texts.specs.Text.{done_line};
ghost use Rattle.ras_events.specs.DoneLines.{done_count};
ghost use Rattle.ras_events.specs.QuietLines.{AreLines, AreQuietLines};
ghost use Rattle.ras_events.specs.PrintedEvents.{PrintedEvent, IsPrintedEvent, HoldsFirst, printed_events};

/// The laws of counting done lines.
pub fn done_lines_count()
    // Quiet lines aren't counted, and neither is any beginning of them, even one that ends in
    // mid-line.
    ensures quiet { (text more : List ℕ) → AreQuietLines text
        → done_count (text ++ more) ≡ done_count more }
    ensures none { (text part rest : List ℕ) → AreQuietLines text → part ++ rest ≡ text
        → done_count part ≡ 0 }

    // The done line of an event is counted once, and only if all of it is there.
    ensures done { (number : ℕ) (more : List ℕ)
        → done_count (done_line number ++ more) ≡ 1 + done_count more }
    ensures begun { (number : ℕ) (part rest : List ℕ) → part ++ rest ≡ done_line number
        → 1 ≤ length rest → done_count part ≡ 0 }

    // So an event is counted only if its whole text and its done line are there.
    ensures event { (text part rest : List ℕ) (number : ℕ) → AreQuietLines text
        → part ++ rest ≡ text ++ done_line number → 1 ≤ length rest → done_count part ≡ 0 }

    // The count of whole lines and another text is the sum of their counts, and a text's count is
    // at least the count of its beginning.
    ensures joined { (text more : List ℕ) → AreLines text
        → done_count (text ++ more) ≡ done_count text + done_count more }
    ensures front { (part rest : List ℕ) → done_count part ≤ done_count (part ++ rest) }
{}

/// The laws of counting events by their done lines.
pub fn done_lines_count_events()
    // Each whole event is counted once.
    ensures whole { (events : List PrintedEvent) (more : List ℕ) → All IsPrintedEvent events
        → done_count (printed_events events ++ more) ≡ length events + done_count more }

    // Take a beginning of what events print, followed by quiet lines, with n done lines: it
    // contains the whole output of the first n events.
    ensures begun { (events : List PrintedEvent) (last part rest : List ℕ)
        → All IsPrintedEvent events → AreQuietLines last
        → part ++ rest ≡ printed_events events ++ last → HoldsFirst events part }
{}
