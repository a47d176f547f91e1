//! The fact that the snapshot of a machine-check bank gives.
ghost use Rattle.std.specs.Prelude.{◌≡◌, ◌↔◌, List, Ok, None, IfOk, IfSome, IsTrue};
ghost use Rattle.std.specs.Bool.{IsFalse};
ghost use Rattle.std.specs.Option.{option_map};
ghost use Rattle.dimm_topology.specs.Labels.{is_label_or_none};
ghost use Rattle.dimm_topology.specs.Topology.{IsTopology};
ghost use Rattle.dimm_topology.specs.declared.row.Row.{Row};
ghost use Rattle.mca_status.specs.Registers.{valid};
ghost use Rattle.ras_facts.specs.Facts.{bank_name, bank_label, bank_item, status_in, bank_fact};
ghost use Rattle.ras_facts.specs.Reports.{bank_report};
ghost use Rattle.ras_facts.specs.Valid.{IsValidItem, IsValidFact};

use crate::{Detail, Details, Fact, Item, Items, Name, Report};
use dimm_topology::{Label, Topology};
use mca_codes::code_of;
use mca_status::{Cap, Class, Misc, Status, class_of, usable_address, usable_page, weight_of};
use ras_base::NoMemory;
use std::alloc::Global;

/// A snapshot of a machine-check bank: where and when it was taken, and the registers' contents.
#[derive(Clone, Copy, Debug, PartialEq, Eq)]
pub struct BankReport {
    /// The boot in which the bank was read.
    pub boot: u64,
    /// When the bank was read, in seconds.
    pub seconds: u64,
    /// The processor's number.
    pub cpu: u16,
    /// The bank's number.
    pub bank: u8,
    /// The processor's time-stamp counter when the error was logged.
    pub tsc: u64,
    /// IA32_MCG_CAP.
    pub cap: u64,
    /// IA32_MCG_STATUS.
    pub mcg: u64,
    /// IA32_MCi_STATUS.
    pub status: u64,
    /// IA32_MCi_ADDR.
    pub addr: u64,
    /// IA32_MCi_MISC.
    pub misc: u64,
}

impl BankReport {
    // Returns the name of the report.
    fn name(&self) -> Name
        ensures { result ≡ bank_name self.now }
    {
        Name::Bank {
            boot: self.boot,
            cpu: self.cpu,
            bank: self.bank,
            tsc: self.tsc,
        }
    }

    // Returns the label of the module that the error belongs to: by the error's address, or else by
    // the memory channel of its code.
    fn label(&self, alloc: Global, topology: &Topology) -> Result<Label, NoMemory>
        ensures label { IfOk result (λ label. label ≡ bank_label self.now topology.now) }
        ensures valid { IfOk result (λ label. IsTrue (is_label_or_none label)) }
    {
        let (cap, status) = (Cap(self.cap), Status(self.status));
        let address = usable_address(cap, status, self.addr, Misc(self.misc));
        let code = code_of(status.error_code());
        match topology.owner_of_bank(self.cpu, self.bank, code, address) {
            Some(owner) => owner.copy(alloc),
            None => Ok(Label::none()),
        }
    }

    // Returns the item of an error of this class.
    fn item(&self, alloc: Global, class: Class, topology: &Topology) -> Result<Item, NoMemory>
        ensures item { IfOk result (λ item. item ≡ bank_item self.now topology.now class) }
        ensures valid { IfOk result IsValidItem }
    {
        let (cap, status) = (Cap(self.cap), Status(self.status));
        Ok(Item {
            class: class.into(),
            label: self.label(alloc, topology)?,
            page: usable_page(cap, status, self.addr, Misc(self.misc)),
            weight: weight_of(cap, status),
        })
    }
}

/// Returns the name of the fact that a bank's snapshot gives, whatever the topology is. It is
/// `None` if and only if the bank has no error (VAL is 0). Allocates nothing.
pub fn name_of_bank(bank: BankReport) -> Option<Name>
    ensures name { (rows : List Row)
        → result ≡ option_map (λ fact. fact.name) (bank_fact bank rows) }

    // The fact is valid, whatever the topology is.
    ensures valid { (rows : List Row) → IsTopology rows
        → IfSome (bank_fact bank rows) IsValidFact }
{
    match class_of(Cap(bank.cap), Status(bank.status)) {
        Some(_) => Some(bank.name()),
        None => None,
    }
}

/// Returns the fact that a bank's snapshot gives: one item with the class of the error, the label
/// of its module by the topology, its usable page and its weight. It is `None` if and only if the
/// bank has no error (VAL is 0), and then nothing is allocated. (Intel SDM, volume 3, chapter
/// "Machine-Check Architecture".)
///
/// `NoMemory`: only if memory runs out.
pub fn fact_of_bank(
    alloc: Global,
    bank: &BankReport,
    topology: &Topology,
) -> Result<Option<Fact>, NoMemory>
    ensures fact { IfOk result (λ fact. fact ≡ bank_fact bank.now topology.now) }
    ensures none { (result ≡ Ok None) ↔ IsFalse (valid (status_in bank.now)) }
    ensures valid { IfOk result (λ fact. IfSome fact IsValidFact) }
{
    let Some(class) = class_of(Cap(bank.cap), Status(bank.status)) else {
        return Ok(None);
    };
    let seconds = bank.seconds;
    let items = Items::one(alloc, bank.item(alloc, class, topology)?)?;
    Ok(Some(Fact {
        name: bank.name(),
        seconds,
        items,
    }))
}

/// Returns the report of a bank: its fact by `fact_of_bank`, and its snapshot as the detail of the
/// one item. It is `None` if and only if the bank has no error (VAL is 0), and then nothing is
/// allocated.
///
/// # Errors
///
/// `NoMemory`: only if memory runs out.
pub fn report_of_bank(
    alloc: Global,
    bank: &BankReport,
    topology: &Topology,
) -> Result<Option<Report>, NoMemory>
    ensures report { IfOk result (λ report. report ≡ bank_report bank.now topology.now) }
    ensures none { (result ≡ Ok None) ↔ IsFalse (valid (status_in bank.now)) }
    ensures valid { IfOk result (λ report. IfSome report (λ told. IsValidFact told.fact)) }
{
    let Some(fact) = fact_of_bank(alloc, bank, topology)? else {
        return Ok(None);
    };
    let details = Details::one(alloc, Detail::Bank(*bank))?;
    Ok(Some(Report { fact, details }))
}
