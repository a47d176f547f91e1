//! The text of an error code, and the type of texts.

ghost use Rattle.std.specs.Prelude.{◌≡◌, ◌++◌, IfOk, OnOk, map};
ghost use Rattle.mca_codes.specs.Codes.{HasFieldsInRange};
ghost use Rattle.mca_codes.specs.Texts.{code_text_of, compound_text, IsWord};

use crate::codes::Code;
use crate::words;
use ras_base::NoMemory;
use std::alloc::Global;
use std::marker::Model;

/// A text to print, which contracts see as the list of its bytes.
#[derive(Debug, Drop)]
pub struct Text {
    bytes: Vec<u8>,
}

impl Model for Text {
    ghost use Rattle.std.specs.Prelude.{ℕ, List};

    ghost Value = { List ℕ };

    ghost view = { λ text. text.bytes.items };
}

impl Text {
    /// Returns the text of these bytes. Allocates nothing.
    pub fn new(bytes: Vec<u8>) -> Text
        ensures { result ≡ bytes.items }
    {
        Text { bytes }
    }

    /// Returns the bytes of the text.
    pub fn bytes(&self) -> &[u8]
        ensures { result.now ≡ self.now }
    {
        &self.bytes
    }
}

/// Returns the text of an error code, as `push_code_text` appends it.
///
/// # Errors
///
/// `NoMemory`: only if memory runs out.
pub fn code_text(alloc: Global, code: Code) -> Result<Text, NoMemory>
    requires { HasFieldsInRange code }
    ensures text { IfOk result (λ text. text ≡ code_text_of code) }

    // A text is one word of a printed line.
    ensures word { IfOk result IsWord }
{
    let mut text = Vec::new(alloc);
    push_code_text(&mut text, code)?;
    Ok(Text::new(text))
}

/// Appends the text of an error code: a word for its kind, then the words of its subfields with a
/// colon before each, then `/F` if a compound code has its filter set. Requires subfields that fit
/// their fields in the code. (The subfields are those of the Intel SDM, volume 3, "Compound Error
/// Codes".)
///
/// # Errors
///
/// `NoMemory`: only if memory runs out.
#[tactic(auto, using(crate::proofs::WordLemmas::text_of_word))]
pub fn push_code_text(text: &mut Vec<u8>, code: Code) -> Result<(), NoMemory>
    requires { HasFieldsInRange code }
    ensures text { OnOk result (text.new.items ≡ text.old.items ++ code_text_of code) }

    // A text is one word of a printed line.
    ensures word { IsWord (code_text_of code) }
{
    match code {
        Code::NoError => Ok(text.extend_from_slice(b"none")?),
        Code::Unclassified => Ok(text.extend_from_slice(b"unclassified")?),
        Code::MicrocodeRom => Ok(text.extend_from_slice(b"microcode-rom-parity")?),
        Code::External => Ok(text.extend_from_slice(b"external")?),
        Code::Frc => Ok(text.extend_from_slice(b"frc")?),
        Code::InternalParity => Ok(text.extend_from_slice(b"internal-parity")?),
        Code::InternalTimer => Ok(text.extend_from_slice(b"internal-timer")?),
        Code::InternalUnclassified => Ok(text.extend_from_slice(b"internal-unclassified")?),
        Code::GenericIo => Ok(text.extend_from_slice(b"generic-io")?),
        Code::Other => Ok(text.extend_from_slice(b"OTHER")?),
        Code::GenericCache { ll, filter } => {
            let words = [words::level(ll)];
            push_compound(text, b"gencache", &words, filter)
        }
        Code::Tlb { tt, ll, filter } => {
            let words = [words::transaction(tt), words::level(ll)];
            push_compound(text, b"tlb", &words, filter)
        }
        Code::Memory {
            mmm,
            channel,
            filter,
        } => {
            let words = [words::memory(mmm), words::channel(channel)];
            push_compound(text, b"memory", &words, filter)
        }
        Code::Cache {
            rrrr,
            tt,
            ll,
            filter,
        } => {
            let words = [
                words::transaction(tt),
                words::level(ll),
                words::request(rrrr),
            ];
            push_compound(text, b"cache", &words, filter)
        }
        Code::Bus {
            pp,
            t,
            rrrr,
            ii,
            ll,
            filter,
        } => push_bus(text, pp, t, rrrr, ii, ll, filter),
    }
}

// Adds the text of a bus and interconnect code.
fn push_bus(
    text: &mut Vec<u8>,
    pp: u8,
    t: u8,
    rrrr: u8,
    ii: u8,
    ll: u8,
    filter: bool,
) -> Result<(), NoMemory>
    requires { HasFieldsInRange (Code.Bus pp t rrrr ii ll filter) }
    ensures { OnOk result (text.new.items
        ≡ text.old.items ++ code_text_of (Code.Bus pp t rrrr ii ll filter)) }
{
    let words = [
        words::level(ll),
        words::participation(pp),
        words::request(rrrr),
        words::target(ii),
        words::timeout(t),
    ];
    push_compound(text, b"bus", &words, filter)
}

// Adds the text of a compound code, by the word for its kind and the words of its subfields.
fn push_compound(
    text: &mut Vec<u8>,
    kind: &[u8],
    words: &[&[u8]],
    filter: bool,
) -> Result<(), NoMemory>
    ensures { OnOk result (text.new.items ≡ text.old.items
        ++ compound_text kind.now (map (λ word. word.now) words.now) filter) }
{
    text.extend_from_slice(kind)?;
    for word in words {
        text.push(b':')?;
        text.extend_from_slice(word)?;
    }
    text.extend_from_slice(words::ending(filter))?;
    Ok(())
}
