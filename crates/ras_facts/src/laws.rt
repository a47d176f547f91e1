//! The laws of every fact and every report.

ghost use Rattle.std.specs.Prelude.{◌≡◌, ◌<◌, ◌^◌, ℕ, List, IfSome};
ghost use Rattle.apei_sources.specs.Blocks.{BlockParts};
ghost use Rattle.cper_records.specs.Header.{section_count};
ghost use Rattle.cper_records.specs.Descriptors.{section_at};
ghost use Rattle.dimm_topology.specs.declared.row.Row.{Row};
ghost use Rattle.ras_facts.specs.Reported.{record_fact, label_at};
ghost use Rattle.ras_facts.specs.Reports.{OwnLabels, TellsOfEachItem, bank_report, block_report};
ghost use Rattle.ras_facts.specs.Reports.{record_report};
ghost use Rattle.ras_facts.specs.declared.bank.BankReport.{BankReport};
ghost use Rattle.ras_facts.specs.declared.items.TheConstants.{MOST_ITEMS, MOST_WEIGHT, PAGES};
ghost use Rattle.ras_facts.specs.declared.name.Name.{Name};

/// The label of an item depends only on the machine description and on the item's own section: not
/// on the other sections, the record's header, the severity or the time.
pub fn labels_are_of_their_sections()
    ensures { (rows : List Row) (seconds later i j : ℕ) (one other : List ℕ)
        → i < section_count one → j < section_count other → section_at one i ≡ section_at other j
        → label_at (record_fact rows seconds one) i ≡ label_at (record_fact rows later other) j }
{}

/// The numbers behind the names that the definitions use.
pub fn numbers()
    ensures items { MOST_ITEMS ≡ 65535 }
    ensures weight { MOST_WEIGHT ≡ 32767 }
    ensures pages { PAGES ≡ 2 ^ 52 }
{}

/// A report has as many details as its fact has items.
pub fn reports_tell_of_each_item()
    ensures bank { (bank : BankReport) (rows : List Row)
        → IfSome (bank_report bank rows) TellsOfEachItem }
    ensures block { (rows : List Row) (name : Name) (seconds : ℕ) (block : BlockParts)
        → IfSome (block_report rows name seconds block) TellsOfEachItem }
    ensures record { (rows : List Row) (seconds : ℕ) (own : List ℕ)
        → TellsOfEachItem (record_report rows seconds own) }
{}

/// Each item that firmware reports has the label of its own section, by the machine description and
/// the section's fields. No other section, no severity and no time matters.
pub fn items_have_their_own_labels()
    ensures record { (rows : List Row) (seconds : ℕ) (own : List ℕ)
        → OwnLabels rows (record_report rows seconds own) }
    ensures block { (rows : List Row) (name : Name) (seconds : ℕ) (block : BlockParts)
        → IfSome (block_report rows name seconds block) (OwnLabels rows) }
{}
