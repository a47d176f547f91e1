//! How a made-up script is read.

ghost use Rattle.std.specs.Prelude.{◌≡◌, ◌≤◌, ℕ, Ok, map};
ghost use Rattle.std.specs.List.{AllByRecursion};
ghost use Rattle.ras_load.specs.LoadScript.{load_lines, load_script};
ghost use Rattle.ras_load.specs.declared.script.TheConstants.{MOST_LINES};
ghost use Rattle.ras_script.specs.Line.{line_of};
ghost use Rattle.ras_script.specs.LineLaws.{IsInRange, line_text};
ghost use Rattle.ras_script.specs.Lines.{script_ended, script_lines};

/// A made-up script is within the limits of scripts, and its lines are the lines that were written:
/// their numbers are in range, and each is read back.
pub fn load_laws()
    ensures lines { (n : ℕ) → n ≤ MOST_LINES → script_lines (load_script n)
        ≡ record { whole = map line_text (load_lines n); ending = script_ended } }
    ensures range { (n : ℕ) → n ≤ MOST_LINES → AllByRecursion IsInRange (load_lines n) }
    ensures read { (n : ℕ) → n ≤ MOST_LINES
        → map line_of (map line_text (load_lines n)) ≡ map Ok (load_lines n) }
{}

/// The number behind a name that the definitions use: the most reports of a made-up script.
pub fn numbers_in_digits()
    ensures lines { MOST_LINES ≡ 50000 }
{}
