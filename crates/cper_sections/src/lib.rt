//! The sections of CPER records: memory, processor and IA32/X64 sections, and the contexts of
//! IA32/X64 sections. It follows the UEFI specification, appendix N, "Common Platform Error
//! Record".
//!
//! A public function with an empty body is a law: its clauses are the point.
#![tactic(auto)]

mod guids;
mod laws;
mod memory;
mod processor;
mod sections;
mod x64;

pub use guids::{SectionType, guid_at, section_type_of};
pub use laws::{contexts_are_the_first_that_fit, numbers_in_digits};
pub use memory::MemSection;
pub use processor::ProcSection;
pub use sections::{Descriptor, RawSection, Section, SectionRefused, read_section};
pub use x64::{Context, X64Section, context_at};
