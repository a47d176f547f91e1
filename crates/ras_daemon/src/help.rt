//! The program's own help and version.

ghost use Rattle.std.specs.Prelude.{◌≡◌, []};
ghost use Rattle.ras_daemon.specs.Help.{HasOneLine, exit_words, form_of, help_text};
ghost use Rattle.ras_daemon.specs.Help.{status_column, version_line};
ghost use Rattle.ras_daemon.specs.declared.word.Task.{Task};
ghost use Rattle.ras_exit.specs.ExitStatus.{exit_number};
ghost use Rattle.ras_exit.specs.declared.exit.Exit.{Exit};

/// The text of `--help`: the commands, where the account is, and the statuses, one line each.
pub const HELP: &[u8] = b"\
    rasd keeps the account of a machine's hardware errors.\n\
    \n\
    rasd run < SCRIPT              count what a script reports, and print orders\n\
    rasd report counts             the sums of each module, by class\n\
    rasd report pages              the pages with errors, and their states\n\
    rasd report names              the names of the errors that were counted\n\
    rasd report modules            the modules, and which are to be replaced\n\
    rasd report metrics            the account in the text format of Prometheus\n\
    rasd lines trace BOOT < TRACE  convert a kernel trace to a script\n\
    rasd lines klog BOOT CAP < LOG convert a kernel log to a script\n\
    rasd lines ghes BOOT SEC < LOG convert the firmware's reports to a script\n\
    rasd lines mce BOOT < RECORD   convert a saved machine check to a script\n\
    rasd lines trace BOOT CAP SEC [edac] < TRACE         convert all of a trace\n\
    rasd lines log BOOT CAP SEC [CHECKS REPORTS] < LOG   convert all of a log\n\
    rasd klog BOOT CAP < LOG       print the machine checks of a log, decoded\n\
    rasd pcie < SCRIPT             print the PCI Express errors of a script\n\
    rasd load N                    dry run: count N made-up reports, in memory\n\
    rasd --help                    print this\n\
    rasd --version                 print the version\n\
    \n\
    BOOT is the boot's number, decimal; CAP is IA32_MCG_CAP, hexadecimal.\n\
    SEC is the second since 1970 at which the boot began, decimal. CHECKS and\n\
    REPORTS are the microseconds of the boot from which a trace that the same run\n\
    gets has machine checks and the firmware's memory errors; - means never.\n\
    edac adds the memory errors of all EDAC drivers, for processors not of Intel.\n\
    The account is in the working folder: the journal rasd.0 and rasd.1, and the\n\
    record store rasd.store. The installed command goes to /var/lib/rasd, or to\n\
    the folder that RASD_FOLDER names. Only run and report use files.\n\
    \n\
    Statuses:\n\
    \x200 the input was read to its end, or what was asked for was printed\n\
    \x201 unknown command\n\
    \x202 a line was rejected; the last line says which one, and why\n\
    \x203 standard input can't be read\n\
    \x204 a disk call failed, or another run has the folder\n\
    \x205 the record store can't be read or replaced, or is no store\n\
    \x206 standard output can't be written\n\
    \x207 a journal file is damaged\n\
    \x208 the account or its journal is full\n\
    \x209 a panic or poll came before any erst line, or an erst table isn't rasd's\n\
    10 the record store stays busy\n\
    11 the record store refuses an operation\n\
    12 memory ran out\n\
    13 the input or a journal file has more than 67,108,864 bytes\n\
    man rasd and docs/OPERATOR.md say more, and what to do about each.\n";

/// Returns the text that `--help` prints. Allocates nothing.
pub fn help_text() -> &'static [u8]
    ensures { result.now ≡ help_text }
{
    HELP
}

/// Returns the line that `--version` prints: the program's name, and its version as in `report
/// metrics`. Allocates nothing.
pub fn version_line() -> &'static [u8]
    ensures { result.now ≡ version_line }
{
    b"rasd 0.1.0\n"
}

/// Laws on the text of `--help`.
pub fn help_laws()
    // Each command has one line, which begins with how the command is written.
    ensures commands { (task : Task) → HasOneLine (form_of task) [] }

    // Each status has one line, with the words for the exit that has this status.
    ensures statuses { (exit : Exit) → HasOneLine (status_column (exit_number exit))
        (exit_words exit) }
{}
