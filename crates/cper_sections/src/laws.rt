//! The laws of sections, for every list of bytes.

ghost use Rattle.std.specs.Prelude.{◌≡◌, ◌≤◌, ◌<◌, ◌+◌, ℕ, List, length, sum_by, slice_get, Some, false};
ghost use Rattle.cper_sections.specs.declared.memory.TheConstants.{OLD_LENGTH, RANK_LENGTH};
ghost use Rattle.cper_sections.specs.declared.processor.TheConstants.{LENGTH};
ghost use Rattle.cper_sections.specs.declared.x64.TheConstants.{CONTEXT_HEADER_LENGTH, FIXED_LENGTH, STRUCTURE_LENGTH};
ghost use Rattle.cper_sections.specs.X64.{x64_validation, stated_contexts, contexts_at, contexts_of, has_context, context_of, bytes_taken, context_bytes};

/// The contexts of an IA32/X64 section follow its structures without gaps and lie inside the
/// section. There are at most as many as the section states. If there are fewer, no context fits
/// after them.
#[tactic(auto, using(crate::proofs::ContextLemmas::most_contexts, crate::proofs::ContextLemmas::context_in_place))]
pub fn contexts_are_the_first_that_fit()
    ensures inside { (bytes : List ℕ) → contexts_at bytes ≤ length bytes
        → contexts_at bytes + sum_by bytes_taken (contexts_of bytes) ≤ length bytes }
    ensures begins { (bytes : List ℕ) (i : ℕ) → i < length (contexts_of bytes)
        → slice_get (contexts_of bytes) i ≡ Some (context_of (context_bytes bytes i)) }
    ensures stated { (bytes : List ℕ)
        → length (contexts_of bytes) ≤ stated_contexts (x64_validation bytes) }
    ensures ended { (bytes : List ℕ)
        → length (contexts_of bytes) < stated_contexts (x64_validation bytes)
        → has_context (context_bytes bytes (length (contexts_of bytes))) ≡ false }
{}

/// The numbers behind the names that the definitions use are those of UEFI 2.10, appendix N.2.4 and
/// N.2.5.
pub fn numbers_in_digits()
    ensures memory { OLD_LENGTH ≡ 73 }
    ensures rank { RANK_LENGTH ≡ 80 }
    ensures processor { LENGTH ≡ 192 }
    ensures x64 { FIXED_LENGTH ≡ 64 }
    ensures structure { STRUCTURE_LENGTH ≡ 64 }
    ensures context { CONTEXT_HEADER_LENGTH ≡ 16 }
{}
