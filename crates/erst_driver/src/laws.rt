//! The model after operations and during them, and the limits in digits.

ghost use Rattle.std.specs.Prelude.{◌≡◌, ◌<◌, ◌≤◌, ◌^◌, ℕ, List, ◌++◌, length};
ghost use Rattle.ras_base.specs.LittleEndian.{AreBytes, number_at};
ghost use Rattle.board_core.specs.declared.board.Access.{Access};
ghost use Rattle.board_core.specs.Device.{KeepsDevice};
ghost use Rattle.board_core.specs.Doing.{Moment, after_acts};
ghost use Rattle.board_core.specs.Stop.{Becomes, InStore, Left};
ghost use Rattle.erst_interp.specs.Run.{acts_of};
ghost use Rattle.erst_store.specs.Actions.{range_length};
ghost use Rattle.erst_store.specs.Device.{header_length, length_place};
ghost use Rattle.erst_store.specs.Store.{without};
ghost use Rattle.erst_driver.specs.Answers.{read_calls, store_after_write};
ghost use Rattle.board_core.specs.Told.{Told, device_of};
ghost use Rattle.erst_store.specs.DeviceLaws.{IsDevice};
ghost use Rattle.erst_store.specs.declared.store.TheConstants.{MOST_RECORDS};
ghost use Rattle.erst_interp.specs.declared.entries.InstructionEntry.{InstructionEntry};
ghost use Rattle.erst_interp.specs.Admission.{IsAdmittedTable};
ghost use Rattle.erst_driver.specs.declared.driver.TheConstants.{MOST_CHECKS, MOST_LISTINGS};
ghost use Rattle.erst_driver.specs.declared.step.Step.{Step};
ghost use Rattle.erst_driver.specs.Operations.{AreInside, after_steps, clear_calls, list_calls, told_by, write_calls};

/// The model after actions by an admitted table has the device after the actions themselves,
/// whatever the table. Nothing else in the model matters, and accesses are only added.
pub fn told_by_is_of_the_device()
    ensures device { (lists : List (List InstructionEntry)) (steps : List Step) (t : Told)
        → IsAdmittedTable lists → AreInside steps → IsDevice (device_of t)
        → device_of (told_by lists steps t) ≡ after_steps steps (device_of t) }
    ensures keeps { (lists : List (List InstructionEntry)) (steps : List Step) (one other : Told)
        → KeepsDevice one other
        → KeepsDevice (told_by lists steps one) (told_by lists steps other) }
    ensures adds { (lists : List (List InstructionEntry)) (steps : List Step) (t : Told)
        → (more : List Access) × ((told_by lists steps t).accesses ≡ t.accesses ++ more) }
{}

/// What the operations do to the record store, by their calls of the device: the model once they
/// are done, and what a crash leaves meanwhile. A clear and a write change the store at one point,
/// a read and a listing never.
pub fn operations_on_the_store()
    ensures clear { (lists : List (List InstructionEntry)) (t : Told) → IsAdmittedTable lists
        → IsDevice (device_of t) → (id : ℕ) → id < 2 ^ 64
        → (after_acts (acts_of (clear_calls lists id (device_of t))) t).here
        ≡ record t.here { store = without id t.here.store } }
    ensures clear_moments { (lists : List (List InstructionEntry)) (t : Told)
        → IsAdmittedTable lists → IsDevice (device_of t) → (id : ℕ) → id < 2 ^ 64 → (left : Left)
        → Moment (acts_of (clear_calls lists id (device_of t))) t left
        → InStore (Becomes (without id t.here.store)) t.here left }

    ensures read { (lists : List (List InstructionEntry)) (t : Told) → IsAdmittedTable lists
        → IsDevice (device_of t) → (id : ℕ) → id < 2 ^ 64
        → (after_acts (acts_of (read_calls lists id (device_of t))) t).here ≡ t.here }
    ensures read_moments { (lists : List (List InstructionEntry)) (t : Told) → IsAdmittedTable lists
        → IsDevice (device_of t) → (id : ℕ) → id < 2 ^ 64 → (left : Left)
        → Moment (acts_of (read_calls lists id (device_of t))) t left → left ≡ t.here }

    ensures list { (lists : List (List InstructionEntry)) (t : Told) → IsAdmittedTable lists
        → IsDevice (device_of t)
        → (after_acts (acts_of (list_calls lists (device_of t))) t).here ≡ t.here }
    ensures list_moments { (lists : List (List InstructionEntry)) (t : Told) → IsAdmittedTable lists
        → IsDevice (device_of t) → (left : Left)
        → Moment (acts_of (list_calls lists (device_of t))) t left → left ≡ t.here }

    ensures write { (lists : List (List InstructionEntry)) (t : Told) → IsAdmittedTable lists
        → IsDevice (device_of t) → (bytes : List ℕ) → header_length ≤ length bytes
        → length bytes ≤ range_length → number_at length_place 4 bytes ≡ length bytes
        → AreBytes bytes → (after_acts (acts_of (write_calls lists bytes (device_of t))) t).here
        ≡ record t.here { store = store_after_write bytes t.here.store } }
    ensures write_moments { (lists : List (List InstructionEntry)) (t : Told)
        → IsAdmittedTable lists → IsDevice (device_of t) → (bytes : List ℕ)
        → header_length ≤ length bytes → length bytes ≤ range_length
        → number_at length_place 4 bytes ≡ length bytes
        → AreBytes bytes → (left : Left)
        → Moment (acts_of (write_calls lists bytes (device_of t))) t left
        → InStore (Becomes (store_after_write bytes t.here.store)) t.here left }
{}

/// The numbers behind the names of the limits.
pub fn driver_limits()
    ensures checks { MOST_CHECKS ≡ 1000 }
    ensures records { MOST_RECORDS ≡ 1024 }
    ensures listings { MOST_LISTINGS ≡ 1025 }
{}
