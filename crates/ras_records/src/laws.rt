//! What the calls of a poll and of a save leave.

ghost use Rattle.std.specs.Prelude.{◌≡◌, ℕ, true, List, ◌++◌, length, Ok};
ghost use Rattle.board_core.specs.Doing.{DeviceCall, Moment};
ghost use Rattle.board_core.specs.Stop.{Becomes, InStore, Left};
ghost use Rattle.board_core.specs.Told.{Told, device_of};
ghost use Rattle.erst_interp.specs.Admission.{IsAdmittedTable};
ghost use Rattle.erst_interp.specs.Run.{KeepsButDevice, acts_of};
ghost use Rattle.erst_interp.specs.declared.entries.InstructionEntry.{InstructionEntry};
ghost use Rattle.erst_driver.specs.Answers.{written_id};
ghost use Rattle.erst_driver.specs.Operations.{clear_calls, is_free_in_time, write_calls};
ghost use Rattle.ras_base.specs.LittleEndian.{AreBytes, number_at};
ghost use Rattle.erst_store.specs.Device.{length_place};
ghost use Rattle.erst_store.specs.DeviceLaws.{IsDevice};
ghost use Rattle.ras_events.specs.Stores.{store_with, unreadable};
ghost use Rattle.ras_records.specs.Each.{after_calls, each_answer, each_calls};
ghost use Rattle.ras_records.specs.Polls.{LacksFirst, look_calls, readable_ids};

/// Calls of the device change only the store among the model's files, record store and text, and
/// the device stays as slow as it was.
pub fn device_calls_change_the_store_alone()
    ensures { (calls : List DeviceCall) (t : Told) → KeepsButDevice t (after_calls calls t) }
{}

/// Listing and reading the records leaves files, store and text unchanged, whether it is done,
/// memory ran out after some of its calls, or the machine crashed meanwhile.
pub fn looks_leave_the_store()
    ensures done { (lists : List (List InstructionEntry)) (t : Told) → IsAdmittedTable lists
        → IsDevice (device_of t) → (after_calls (look_calls lists t) t).here ≡ t.here }
    ensures begun { (lists : List (List InstructionEntry)) (t : Told) → IsAdmittedTable lists
        → IsDevice (device_of t) → (done later : List DeviceCall)
        → done ++ later ≡ look_calls lists t → (after_calls done t).here ≡ t.here }
    ensures moments { (lists : List (List InstructionEntry)) (t : Told) → IsAdmittedTable lists
        → IsDevice (device_of t) → (left : Left)
        → Moment (acts_of (look_calls lists t)) t left → left ≡ t.here }
    ensures device { (lists : List (List InstructionEntry)) (t : Told) → IsAdmittedTable lists
        → IsDevice (device_of t) → IsDevice (device_of (after_calls (look_calls lists t) t)) }
{}

/// Clearing the readable records of a store, over a device that is fast enough, succeeds, and
/// leaves the other records. A crash meanwhile leaves a store that lacks some of these records,
/// from the first on, and all else unchanged.
pub fn clears_take_the_readable_records()
    ensures answer { (lists : List (List InstructionEntry)) (t : Told) → IsAdmittedTable lists
        → IsDevice (device_of t) → is_free_in_time t.volatile.slow ≡ true → (ids : List ℕ)
        → readable_ids t.here.store ≡ ids → each_answer (clear_calls lists) ids t ≡ Ok tt }
    ensures done { (lists : List (List InstructionEntry)) (t : Told) → IsAdmittedTable lists
        → IsDevice (device_of t) → is_free_in_time t.volatile.slow ≡ true → (ids : List ℕ)
        → readable_ids t.here.store ≡ ids
        → (after_calls (each_calls (clear_calls lists) ids t) t).here
        ≡ record t.here { store = unreadable t.here.store } }
    ensures moments { (lists : List (List InstructionEntry)) (t : Told) → IsAdmittedTable lists
        → IsDevice (device_of t) → is_free_in_time t.volatile.slow ≡ true → (ids : List ℕ)
        → readable_ids t.here.store ≡ ids → (left : Left)
        → Moment (acts_of (each_calls (clear_calls lists) ids t)) t left
        → InStore LacksFirst t.here left }
{}

/// A save puts its record into the store under the identifier in its header, at one point, and all
/// else is unchanged.
pub fn savings_are_puts()
    ensures done { (lists : List (List InstructionEntry)) (t : Told) → IsAdmittedTable lists
        → IsDevice (device_of t) → (bytes : List ℕ) → length bytes ≡ 456
        → number_at length_place 4 bytes ≡ 456 → AreBytes bytes
        → (after_calls (write_calls lists bytes (device_of t)) t).here
        ≡ record t.here { store = store_with (written_id bytes) bytes t.here.store } }
    ensures moments { (lists : List (List InstructionEntry)) (t : Told) → IsAdmittedTable lists
        → IsDevice (device_of t) → (bytes : List ℕ) → length bytes ≡ 456
        → number_at length_place 4 bytes ≡ 456 → AreBytes bytes → (left : Left)
        → Moment (acts_of (write_calls lists bytes (device_of t))) t left
        → InStore (Becomes (store_with (written_id bytes) bytes t.here.store)) t.here left }
{}
