//! The laws of every list of entries, and the limits as numbers.

ghost use Rattle.std.specs.Prelude.{◌≡◌, ℕ, ◌<◌, ◌^◌, List};
ghost use Rattle.erst_store.specs.Device.{Device};
ghost use Rattle.erst_store.specs.DeviceLaws.{IsDevice};
ghost use Rattle.erst_interp.specs.declared.entries.InstructionEntry.{InstructionEntry};
ghost use Rattle.erst_interp.specs.Admission.{IsAdmitted};
ghost use Rattle.erst_interp.specs.Faithful.{IsFaithful, input_limit};
ghost use Rattle.erst_interp.specs.Machine.{machine_end};
ghost use Rattle.erst_interp.specs.Table.{list_of, lists_of, entries_for};
ghost use Rattle.erst_interp.specs.declared.entries.TheConstants.{ENTRY_LENGTH};
ghost use Rattle.erst_interp.specs.declared.run.TheConstants.{MOST_TURNS};
ghost use Rattle.erst_interp.specs.declared.table.TheConstants.{ERST_FIXED_LENGTH};

/// An admitted list of an action does the action, on every device and every input. So two admitted
/// lists of one action return the same and leave the same device.
pub fn admitted_lists_are_faithful()
    ensures faithful { (action : ℕ) (list : List InstructionEntry) → action < 2 ^ 64
        → IsAdmitted action list → IsFaithful action list }

    ensures one_answer { (action input : ℕ) (one other : List InstructionEntry) (d : Device)
        → action < 2 ^ 64 → IsAdmitted action one → IsAdmitted action other
        → IsDevice d → input < input_limit action
        → (machine_end one input d).answer ≡ (machine_end other input d).answer }
    ensures one_device { (action input : ℕ) (one other : List InstructionEntry) (d : Device)
        → action < 2 ^ 64 → IsAdmitted action one → IsAdmitted action other
        → IsDevice d → input < input_limit action
        → (machine_end one input d).state.device ≡ (machine_end other input d).state.device }
{}

/// In a table that was read, the list of an action has the entries of this action, in the order of
/// the table.
pub fn lists_are_of_the_entries()
    ensures { (action : ℕ) (entries : List InstructionEntry) → action < 256
        → list_of action (lists_of entries) ≡ entries_for action entries }
{}

/// The numbers behind the names of the limits.
pub fn table_limits()
    ensures fixed { ERST_FIXED_LENGTH ≡ 48 }
    ensures entry { ENTRY_LENGTH ≡ 32 }
    ensures turns { MOST_TURNS ≡ 4096 }
{}
