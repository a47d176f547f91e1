//! Laws: what the filter writes is read back.

ghost use Rattle.std.specs.Prelude.{◌≡◌, ◌<◌, ◌≤◌, ◌^◌, ℕ, List, false, length, map, Ok};
ghost use Rattle.std.specs.List.{AllByRecursion};
ghost use Rattle.apei_sources.specs.Blocks.{block_of};
ghost use Rattle.apei_sources.specs.Entries.{entry_data, entry_guid, entry_severity};
ghost use Rattle.cper_sections.specs.Sections.{section_of};
ghost use Rattle.cper_sections.specs.declared.sections.Section.TheVariants.{Memory};
ghost use Rattle.block_lines.specs.Blocks.{block_bytes, made_status, error_entry_bytes};
ghost use Rattle.ras_facts.specs.Names.{same_name};
ghost use Rattle.ras_script.specs.Line.{line_of};
ghost use Rattle.block_lines.specs.ReadBack.{IsError, IsNamed, block_asked, block_name};
ghost use Rattle.block_lines.specs.ReadBack.{report_errors, section_told};
ghost use Rattle.block_lines.specs.Reports.{Reporting};
ghost use Rattle.block_lines.specs.Texts.{ghes_line};
ghost use Rattle.block_lines.specs.declared.report.OpenReport.{OpenReport};
ghost use Rattle.block_lines.specs.declared.memory.MemoryError.{MemoryError};
ghost use Rattle.block_lines.specs.declared.report.TheConstants.{MOST_ERRORS};

/// The block of a report is read as one entry for each error, with the error's severity and a
/// memory section of the error's address, mask, location and type, and nothing else.
pub fn made_blocks_are_read_back()
    ensures block { (severity : ℕ) (errors : List MemoryError) → AllByRecursion IsError errors
        → 0 < length errors → length errors ≤ MOST_ERRORS
        → block_of (block_bytes severity errors) ≡ Ok (record {
          status = made_status severity (length errors);
          entries = map error_entry_bytes errors;
        }) }
    ensures severity { (error : MemoryError) → IsError error
        → entry_severity (error_entry_bytes error) ≡ error.severity }
    ensures section { (error : MemoryError) → IsError error
        → section_of (entry_guid (error_entry_bytes error)) (entry_data (error_entry_bytes error))
        ≡ Ok (Memory (section_told error)) }
{}

/// The line of a report asks for the block of the report's errors, under a name that no report of
/// the same boot with another time stamp has.
pub fn made_lines_are_read_back()
    ensures line { (r : Reporting) (report : OpenReport) → IsNamed r report
        → AllByRecursion IsError (report_errors r report)
        → line_of (ghes_line r report) ≡ Ok (block_asked r report) }
    ensures names { (r : Reporting) (one other : OpenReport) → ¬ (one.begun ≡ other.begun)
        → same_name (block_name r one) (block_name r other) ≡ false }
{}
