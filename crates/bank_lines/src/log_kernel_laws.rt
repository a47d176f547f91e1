//! Laws: what kernels print in their log is read, and an error that is printed twice has one name.

ghost use Rattle.std.specs.Prelude.{◌≡◌, ◌<◌, ◌^◌, ℕ, List, [], ◌∷◌, ◌++◌, Bool, true, false};
ghost use Rattle.ras_facts.specs.declared.bank.BankReport.{BankReport};
ghost use Rattle.ras_klog.specs.declared.state.KlogOut.TheVariants.{Whole};
ghost use Rattle.bank_lines.specs.Kernel.{IsPrinted, Printed};
ghost use Rattle.bank_lines.specs.LogFilter.{founds_of};
ghost use Rattle.bank_lines.specs.LogGroups.{LogGroup, found_told, group_founds_from, group_vendor};
ghost use Rattle.bank_lines.specs.LogGroups.{no_names, printers_after, told_in};
ghost use Rattle.bank_lines.specs.LogKernel.{AreHeads, Driver, Heads, edac_log, log_report, plain_log};
ghost use Rattle.bank_lines.specs.EdacReports.{printed_by_edac};
ghost use Rattle.bank_lines.specs.LogLines.{printed_plain};
ghost use Rattle.bank_lines.specs.declared.log_line.Print.{Print};
ghost use Rattle.bank_lines.specs.declared.log_state.Printers.{Printers};

/// If a kernel prints each machine check itself, an error that EDAC prints too is printed twice: in
/// EDAC's lines, and in the kernel's own. If EDAC and the kernel printed errors with the same
/// counts so far, the second text's finding is the first text's finding. So the two reports have
/// one name, also without a counter, and the counts are equal again. The body is empty: the clauses
/// are the point.
pub fn twice_printed_errors_have_one_name()
    ensures found { (boot cap : ℕ) (before : Printers) (edac plain : LogGroup)
        (groups : List LogGroup) (report : BankReport) → before.edac ≡ before.kernel
        → edac.print.by_edac ≡ true → plain.print.by_edac ≡ false
        → told_in boot cap edac ≡ Whole report → told_in boot cap plain ≡ Whole report
        → group_vendor edac.rest ≡ group_vendor plain.rest
        → let vendor = group_vendor edac.rest in
        let found = found_told before edac.print vendor (Whole report) in
        let after = printers_after (printers_after before edac.print vendor (Whole report))
        plain.print vendor (Whole report) in
        group_founds_from boot cap before (edac ∷ plain ∷ groups)
        ≡ found ∷ found ∷ group_founds_from boot cap after groups }
    ensures after { (before : Printers) (edac plain : Print) (vendor : ℕ) (report : BankReport)
        → before.edac ≡ before.kernel → edac.by_edac ≡ true → plain.by_edac ≡ false
        → let after = printers_after (printers_after before edac vendor (Whole report))
        plain vendor (Whole report) in after.edac ≡ after.kernel }
{}

/// The text of a machine check, as kernels print it and as each driver of EDAC prints it, is read
/// as its report. Both texts of one error are read as one report, twice.
/// The body is empty: the clauses are the point.
pub fn printed_logs_are_read()
    ensures plain { (boot cap : ℕ) (heads : Heads) (exception : Bool) (p : Printed) → IsPrinted p
        → AreHeads heads → founds_of boot cap (plain_log heads exception p)
        ≡ found_told no_names printed_plain p.event.vendor
        (Whole (log_report boot cap p.event)) ∷ [] }
    ensures edac { (boot cap : ℕ) (heads : Heads) (driver : Driver) (controller : ℕ)
        (exception : Bool) (p : Printed) → IsPrinted p → controller < 2 ^ 64 → AreHeads heads
        → founds_of boot cap (edac_log heads driver controller exception p)
        ≡ found_told no_names printed_by_edac p.event.vendor
        (Whole (log_report boot cap p.event)) ∷ [] }
    ensures both { (boot cap : ℕ) (heads others : Heads) (driver : Driver) (controller : ℕ)
        (exception : Bool) (p : Printed) → IsPrinted p → controller < 2 ^ 64 → AreHeads heads
        → AreHeads others
        → let found = found_told no_names printed_by_edac
        p.event.vendor (Whole (log_report boot cap p.event)) in
        founds_of boot cap
        (edac_log heads driver controller exception p ++ plain_log others exception p)
        ≡ found ∷ found ∷ [] }
{}
