//! The laws of panic records, for every report and every record.

ghost use Rattle.std.specs.Prelude.{◌≡◌, ◌<◌, ◌≤◌, ◌^◌, ◌↔◌, ◌++◌, ℕ, List, length, IsTrue, Ok, Some};
ghost use Rattle.mca_status.specs.Registers.{valid};
ghost use Rattle.ras_base.specs.LittleEndian.{AreBytes, number_at};
ghost use Rattle.cper_records.specs.Header.{record_id};
ghost use Rattle.cper_records.specs.Laid.{IsRecord};
ghost use Rattle.cper_records.specs.Records.{record_of};
ghost use Rattle.dimm_topology.specs.declared.row.Row.{Row};
ghost use Rattle.ras_facts.specs.Facts.{bank_fact, status_in};
ghost use Rattle.ras_facts.specs.Reported.{record_fact};
ghost use Rattle.ras_facts.specs.Reports.{TellsOfEachItem};
ghost use Rattle.ras_facts.specs.declared.bank.BankReport.{BankReport};
ghost use Rattle.ras_panic.specs.Panics.{panic_bytes};
ghost use Rattle.ras_panic.specs.Reading.{panic_report, stored_fact, stored_name, stored_report};
ghost use Rattle.ras_panic.specs.Reports.{FitsFields, HoldsReport};

/// The panic record of a report is read as a record of its identifier, whatever bytes come after
/// it, and gives the report back. Its fact is the bank's own, with the seconds of the report.
pub fn reports_are_read_back()
    ensures read { (id : ℕ) (bank : BankReport)
        → record_of (panic_bytes id bank) ≡ Ok (panic_bytes id bank) }
    ensures first { (id : ℕ) (bank : BankReport) (rest : List ℕ)
        → record_of (panic_bytes id bank ++ rest) ≡ Ok (panic_bytes id bank) }
    ensures id { (id : ℕ) (bank : BankReport) → id < 2 ^ 64
        → record_id (panic_bytes id bank) ≡ id }
    ensures report { (id : ℕ) (bank : BankReport) → FitsFields bank
        → IsTrue (valid (status_in bank)) → panic_report (panic_bytes id bank) ≡ Some bank }
    ensures fact { (rows : List Row) (seconds id : ℕ) (bank : BankReport) → FitsFields bank
        → IsTrue (valid (status_in bank))
        → Some (stored_fact rows seconds (panic_bytes id bank)) ≡ bank_fact bank rows }
{}

/// A record gives a report if and only if it contains one. Its fact is then the bank's own, with
/// the seconds of the report. The fact of every other record is the fact of its sections.
pub fn reports_are_held()
    ensures report { (own : List ℕ) (bank : BankReport) → AreBytes own → FitsFields bank
        → (panic_report own ≡ Some bank) ↔ HoldsReport own bank }
    ensures bank { (rows : List Row) (seconds : ℕ) (own : List ℕ) (bank : BankReport)
        → FitsFields bank → HoldsReport own bank
        → Some (stored_fact rows seconds own) ≡ bank_fact bank rows }
    ensures ordinary { (rows : List Row) (seconds : ℕ) (own : List ℕ) → AreBytes own
        → ((bank : BankReport) → FitsFields bank → ¬ HoldsReport own bank)
        → stored_fact rows seconds own ≡ record_fact rows seconds own }
{}

/// A panic record has 456 bytes, and its header says so.
pub fn panic_records_tell_their_length()
    ensures length { (id : ℕ) (bank : BankReport) → length (panic_bytes id bank) ≡ 456 }
    ensures told { (id : ℕ) (bank : BankReport) → number_at 20 4 (panic_bytes id bank) ≡ 456 }
{}

/// The fact of a record of the store has the record's name, whatever the rows of the machine and
/// the time are.
pub fn stored_facts_are_named()
    ensures { (rows : List Row) (seconds : ℕ) (own : List ℕ)
        → (stored_fact rows seconds own).name ≡ stored_name own }
{}

/// The report of a record of the store has as many details as its fact has items, and its fact is
/// the fact of the record.
pub fn stored_reports_tell_of_each_item()
    ensures stored { (rows : List Row) (seconds : ℕ) (own : List ℕ)
        → TellsOfEachItem (stored_report rows seconds own) }
    ensures fact { (rows : List Row) (seconds : ℕ) (own : List ℕ)
        → (stored_report rows seconds own).fact ≡ stored_fact rows seconds own }
{}

/// A record of at most 16,384 bytes, the most that a store has of a record, reports at most 225
/// items, because each section takes a descriptor of 72 bytes besides the header's 128.
pub fn stored_reports_are_short()
    ensures { (rows : List Row) (seconds : ℕ) (own : List ℕ) → IsRecord own
        → length own ≤ 16_384
        → length (stored_report rows seconds own).fact.items ≤ 225 }
{}
