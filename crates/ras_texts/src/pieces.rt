//! The pieces of lines: names, classes, pages and labels.

ghost use Rattle.std.specs.Prelude.{◌≡◌, ◌++◌, drop, OnOk};
ghost use Rattle.std.specs.Int.{to_be_bytes, w64};
ghost use Rattle.hex.specs.Hex.{encode_lower};
ghost use Rattle.ras_texts.specs.Text.{class_text, label_text, name_text, page_text, state_text};

use dimm_topology::Label;
use mca_status::{CLASS_COUNT, ItemClass};
use page_policy::PageState;
use ras_base::{NoMemory, push_number};
use ras_facts::Name;

/// The classes in the order of their numbers.
pub const CLASSES: [ItemClass; CLASS_COUNT] = [
    ItemClass::Ce,
    ItemClass::Ucna,
    ItemClass::Srao,
    ItemClass::Srar,
    ItemClass::Uc,
    ItemClass::Odd,
    ItemClass::Corrected,
    ItemClass::Recoverable,
    ItemClass::Fatal,
    ItemClass::Informational,
];

/// Appends the name of a report, as lines print it.
///
/// `NoMemory`: only if memory runs out.
pub fn push_name(text: &mut Vec<u8>, name: &Name) -> Result<(), NoMemory>
    ensures { OnOk result (text.new.items ≡ text.old.items ++ name_text name.now) }
{
    match name {
        Name::Bank {
            boot,
            cpu,
            bank,
            tsc,
        } => {
            text.extend_from_slice(b"bank=")?;
            push_number(text, *boot)?;
            text.push(b'/')?;
            push_number(text, u64::from(*cpu))?;
            text.push(b'/')?;
            push_number(text, u64::from(*bank))?;
            text.push(b'/')?;
            push_number(text, *tsc)
        }
        Name::Record { id } => {
            text.extend_from_slice(b"record=")?;
            text.extend_from_slice(&hexadecimal_digits(*id))?;
            Ok(())
        }
        Name::Block {
            boot,
            source,
            number,
        } => {
            text.extend_from_slice(b"block=")?;
            push_number(text, *boot)?;
            text.push(b'/')?;
            push_number(text, u64::from(*source))?;
            text.push(b'/')?;
            push_number(text, *number)
        }
        Name::Boot { boot } => {
            text.extend_from_slice(b"bert=")?;
            push_number(text, *boot)
        }
    }
}

/// Returns the word for a class.
pub fn class_word(class: ItemClass) -> &'static [u8]
    ensures { result.now ≡ class_text class }
{
    match class {
        ItemClass::Ce => b"CE",
        ItemClass::Ucna => b"UCNA",
        ItemClass::Srao => b"SRAO",
        ItemClass::Srar => b"SRAR",
        ItemClass::Uc => b"UC",
        ItemClass::Odd => b"ODD",
        ItemClass::Corrected => b"corrected",
        ItemClass::Recoverable => b"recoverable",
        ItemClass::Fatal => b"fatal",
        ItemClass::Informational => b"informational",
    }
}

/// Returns the word for a page's state.
pub fn state_word(state: PageState) -> &'static [u8]
    ensures { result.now ≡ state_text state }
{
    match state {
        PageState::Kept => b"kept",
        PageState::Soft => b"soft",
        PageState::Hard => b"hard",
    }
}

/// Returns the number of a page in 13 hexadecimal digits. With three zeros after it, it is the
/// address of the page's first byte.
pub fn page_digits(page: u64) -> [u8; 13]
    ensures { result ≡ drop 3 (encode_lower (to_be_bytes w64 page)) }
{
    let mut digits = [0u8; 13];
    digits.copy_from_slice(&hexadecimal_digits(page)[3..]);
    digits
}

/// Returns a number as 16 hexadecimal digits.
pub fn hexadecimal_digits(number: u64) -> [u8; 16]
    ensures { result ≡ encode_lower (to_be_bytes w64 number) }
{
    let mut digits = [0u8; 16];
    let _ = hex::encode_to_slice(number.to_be_bytes(), &mut digits);
    digits
}

/// Appends a page as the address of its first byte, or `-` if there is no page.
///
/// `NoMemory`: only if memory runs out.
pub fn push_page(text: &mut Vec<u8>, page: Option<u64>) -> Result<(), NoMemory>
    ensures { OnOk result (text.new.items ≡ text.old.items ++ page_text page) }
{
    match page {
        None => text.extend_from_slice(b"-")?,
        Some(page) => {
            text.extend_from_slice(&page_digits(page))?;
            text.extend_from_slice(b"000")?;
        }
    }
    Ok(())
}

/// Appends the label of a module, or `-` if it is empty.
///
/// `NoMemory`: only if memory runs out.
pub fn push_label(text: &mut Vec<u8>, label: &Label) -> Result<(), NoMemory>
    ensures { OnOk result (text.new.items ≡ text.old.items ++ label_text label.now) }
{
    text.extend_from_slice(label_word(label))?;
    Ok(())
}

/// Returns the label of a module, or `-` if it is empty.
pub fn label_word(label: &Label) -> &[u8]
    ensures { result.now ≡ label_text label.now }
{
    let bytes = label.bytes();
    if bytes.is_empty() { b"-" } else { bytes }
}
