//! A law: the filter of kernel logs prints the text of each group of lines.

ghost use Rattle.std.specs.Prelude.{◌≡◌, ℕ, List, ◌++◌};
ghost use Rattle.std.specs.List.{flat_map};
ghost use Rattle.ras_exit.specs.ScriptEnd.{script_exit};
ghost use Rattle.line_filters.specs.Filters.{filter_exit, filter_output, texts_in};
ghost use Rattle.ras_klog.specs.Klog.{early_text, klog_answers, klog_filter, klog_rest, klog_text};
ghost use Rattle.ras_klog.specs.Output.{klog_output};

/// The filter of a kernel log prints the text of each group of its lines, once and in order, and
/// then the counts, or the `stop` line of a rejection. A line is rejected only if it is too long.
pub fn klog_is_told_by_groups()
    ensures exit { (boot cap : ℕ) (script : List ℕ)
        → filter_exit (klog_filter boot cap) script ≡ script_exit script }
    ensures output { (boot cap : ℕ) (script : List ℕ)
        → filter_output (klog_filter boot cap) script ≡ klog_output boot cap script }

    // The lines' texts are the groups' text as far as it doesn't depend on the log's end; the text
    // after the lines is the rest.
    ensures early { (boot cap : ℕ) (lines : List (List ℕ))
        → flat_map (λ text. text) (texts_in (klog_answers boot cap lines))
        ≡ early_text boot cap lines }
    ensures whole { (boot cap : ℕ) (lines : List (List ℕ))
        → early_text boot cap lines ++ klog_rest boot cap lines ≡ klog_text boot cap lines }
{}
