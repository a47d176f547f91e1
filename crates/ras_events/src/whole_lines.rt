//! Texts of whole lines, one after another.

ghost use Rattle.std.specs.Prelude.{◌++◌, ℕ, List, [], codes, decimal, IsFalse};
ghost use Rattle.ras_base.specs.Text.{line_with};
ghost use Rattle.ras_script.specs.SplittingLaws.{Lacks};
ghost use Rattle.ras_texts.specs.Text.{done_line};
ghost use Rattle.ras_events.specs.DoneLines.{is_done_line};
ghost use Rattle.ras_events.specs.QuietLines.{AreLines, AreQuietLines};

/// The laws of quiet lines.
pub fn quiet_lines_follow_one_another()
    // A text without a line feed that doesn't begin with `done ` is a quiet line once a line feed
    // ends it. The empty text is quiet, and so are two joined quiet texts.
    ensures text { (text : List ℕ) → Lacks 10 text → IsFalse (is_done_line text)
        → AreQuietLines (line_with text) }
    ensures none { AreQuietLines [] }
    ensures quiet { (one other : List ℕ) → AreQuietLines one → AreQuietLines other
        → AreQuietLines (one ++ other) }

    // So the line that gives the reason for a rejected line is quiet, whatever the reason.
    ensures refused { (line : ℕ) (reason : List ℕ) → Lacks 10 reason → AreQuietLines
        (line_with (codes "stop 2 line=" ++ decimal line ++ codes " reason=" ++ reason)) }
{}

/// The laws of whole lines.
pub fn lines_follow_one_another()
    // Quiet lines are whole lines, a done line is one, and two joined texts of whole lines are
    // whole lines.
    ensures lines { (text : List ℕ) → AreQuietLines text → AreLines text }
    ensures done { (number : ℕ) → AreLines (done_line number) }
    ensures joined { (one other : List ℕ) → AreLines one → AreLines other
        → AreLines (one ++ other) }

    // Numbers have no line feed, and neither have texts joined from texts without line feeds.
    ensures number { (number : ℕ) → Lacks 10 (decimal number) }
    ensures both { (one other : List ℕ) → Lacks 10 one → Lacks 10 other
        → Lacks 10 (one ++ other) }
{}
