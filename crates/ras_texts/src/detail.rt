//! What a log line prints about a bank's registers.

ghost use Rattle.std.specs.Prelude.{◌≡◌, ◌++◌, codes, OnOk};
ghost use Rattle.ras_texts.specs.Detail.{bank_detail, code_detail, error_detail, flags_detail};
ghost use Rattle.ras_texts.specs.Detail.{bit_text, mark_text, threshold_text};

use mca_codes::{Mark, code_of, mark_of, push_code_text};
use mca_status::{Cap, GlobalStatus, Status, Threshold, threshold_of};
use ras_base::NoMemory;
use ras_facts::BankReport;

/// Appends the text of a bank's registers besides the class, the weight and the page.
///
/// `NoMemory`: only if memory runs out.
pub fn push_bank(text: &mut Vec<u8>, bank: &BankReport) -> Result<(), NoMemory>
    ensures { OnOk result (text.new.items ≡ text.old.items ++ bank_detail bank.now) }
{
    push_error(text, Cap(bank.cap), Status(bank.status))?;
    push_flags(text, GlobalStatus(bank.mcg))
}

// Appends the text of an error's registers.
#[tactic(auto, unfolding(crate::specs::Detail::error_detail))]
fn push_error(text: &mut Vec<u8>, cap: Cap, status: Status) -> Result<(), NoMemory>
    ensures { OnOk result (text.new.items ≡ text.old.items ++ error_detail cap status) }
{
    let code = status.error_code();
    push_code(text, code)?;
    text.extend_from_slice(threshold_field(threshold_of(cap, status)))?;
    text.extend_from_slice(over_field(status.overflow()))?;
    text.extend_from_slice(mark_field(mark_of(code)))?;
    Ok(())
}

// Appends the text of an error code.
#[tactic(auto, unfolding(crate::specs::Detail::code_detail))]
fn push_code(text: &mut Vec<u8>, code: u16) -> Result<(), NoMemory>
    ensures { OnOk result (text.new.items ≡ text.old.items ++ code_detail code) }
{
    text.extend_from_slice(b"code=")?;
    push_code_text(text, code_of(code))
}

// Appends the flags of IA32_MCG_STATUS.
#[tactic(auto, unfolding(crate::specs::Detail::flags_detail))]
fn push_flags(text: &mut Vec<u8>, global: GlobalStatus) -> Result<(), NoMemory>
    ensures { OnOk result (text.new.items ≡ text.old.items ++ flags_detail global) }
{
    text.extend_from_slice(flag_fields(
        global.is_restart_valid(),
        global.is_error_pointer_valid(),
        global.is_in_progress(),
    ))?;
    Ok(())
}

// Returns a bank's threshold status as a field.
fn threshold_field(threshold: Threshold) -> &'static [u8]
    ensures { result.now ≡ codes " threshold=" ++ threshold_text threshold }
{
    match threshold {
        Threshold::Untold => b" threshold=-",
        Threshold::NoTracking => b" threshold=none",
        Threshold::Green => b" threshold=green",
        Threshold::Yellow => b" threshold=yellow",
        Threshold::Reserved => b" threshold=reserved",
    }
}

// Returns OVER as a field.
fn over_field(is_over: bool) -> &'static [u8]
    ensures { result.now ≡ codes " over=" ++ bit_text is_over }
{
    if is_over { b" over=1" } else { b" over=0" }
}

// Returns the kind of recoverable error that a code belongs to, as a field.
fn mark_field(mark: Mark) -> &'static [u8]
    ensures { result.now ≡ codes " mark=" ++ mark_text mark }
{
    match mark {
        Mark::Neither => b" mark=-",
        Mark::Srao => b" mark=srao",
        Mark::Srar => b" mark=srar",
    }
}

// Returns the flags RIPV, EIPV and MCIP as fields.
fn flag_fields(ripv: bool, eipv: bool, mcip: bool) -> &'static [u8]
    ensures { result.now ≡ codes " ripv=" ++ bit_text ripv ++ codes " eipv=" ++ bit_text eipv
        ++ codes " mcip=" ++ bit_text mcip }
{
    match (ripv, eipv, mcip) {
        (false, false, false) => b" ripv=0 eipv=0 mcip=0",
        (false, false, true) => b" ripv=0 eipv=0 mcip=1",
        (false, true, false) => b" ripv=0 eipv=1 mcip=0",
        (false, true, true) => b" ripv=0 eipv=1 mcip=1",
        (true, false, false) => b" ripv=1 eipv=0 mcip=0",
        (true, false, true) => b" ripv=1 eipv=0 mcip=1",
        (true, true, false) => b" ripv=1 eipv=1 mcip=0",
        (true, true, true) => b" ripv=1 eipv=1 mcip=1",
    }
}
