//! Laws of the device's actions and of a store's file, stated without following the code.
ghost use Rattle.std.specs.Prelude.{◌≡◌, ◌≢◌, ℕ, ◌+◌, ◌^◌, ◌<◌, ◌≤◌, ◌++◌, [], ◌∷◌, List, false, length, drop, None, Some, Ok};
ghost use Rattle.ras_base.specs.LittleEndian.{AreBytes, number_at};
ghost use Rattle.erst_store.specs.Actions.{execute_operation, check_busy_status, get_command_status, get_record_identifier, get_record_count, range_length};
ghost use Rattle.erst_store.specs.Store.{Stored, SameBut, IsStore, all_ones, ids, bytes_under, refusal_of, with_record, without};
ghost use Rattle.erst_store.specs.StoreFile.{LacksRecord, store_bytes};
ghost use Rattle.erst_store.specs.StoreReading.{file_at, store_at};
ghost use Rattle.erst_store.specs.Device.{Device, act, with_put, range_with, new_device, id_at, length_at, record_at, is_record_out, id_place, length_place};
ghost use Rattle.erst_store.specs.DeviceLaws.{IsDevice, MayChange, id_changed, listing, after_listings, left_to_list, listed_to_end};

use crate::{MOST_BYTES, MOST_RECORDS, RANGE_LENGTH};

/// The laws of the device's actions.
pub fn action_laws()
    // The store changes only by EXECUTE under a write or a clear.
    ensures kept { (action : ℕ) (d : Device) → ¬ MayChange action d
        → (act action d).store ≡ d.store }
    // It changes only at one identifier: all other records keep their bytes and their order.
    ensures one { (action : ℕ) (d : Device)
        → SameBut (id_changed d.command d) d.store (act action d).store }

    // EXECUTE drops the Value register.
    ensures forgets { (value : ℕ) (d : Device)
        → act execute_operation (record d { value = value }) ≡ act execute_operation d }

    // The actions that return something put it into Value.
    ensures busy { (d : Device) → (act check_busy_status d).value < 2 }
    ensures status { (d : Device) → (act get_command_status d).value < 2 ^ 8 }
    ensures id { (d : Device) → IsDevice d → (act get_record_identifier d).value < 2 ^ 64 }
    ensures count { (d : Device) → IsDevice d → (act get_record_count d).value < 2 ^ 32 }

    // From any cursor a listing gives the identifiers from there on, in the store's order, and then
    // all ones. After that it starts again from the first. It changes nothing else.
    ensures listed { (d : Device)
        → listing (left_to_list d) d ≡ drop d.cursor (ids d.store) ++ all_ones ∷ [] }
    ensures anew { (d : Device) → after_listings (left_to_list d) d ≡ listed_to_end d }
    ensures all { (d : Device) → d.cursor ≡ 0 → left_to_list d ≡ length d.store + 1 }

    // The identifier and the length of the record that a write finds in the range are those in the
    // record's header.
    ensures identifier { (range : List ℕ) (offset : ℕ) → is_record_out range offset ≡ false
        → number_at id_place 8 (record_at range offset) ≡ id_at range offset }
    ensures size { (range : List ℕ) (offset : ℕ) → is_record_out range offset ≡ false
        → number_at length_place 4 (record_at range offset) ≡ length_at range offset }
{}

/// The laws of a store after a put.
pub fn store_laws()
    // The bytes that were put are found under their identifier, and under every other identifier
    // the bytes that were there before.
    ensures own { (id : ℕ) (bytes : List ℕ) (records : List Stored)
        → bytes_under id (with_record id bytes records) ≡ Some bytes }
    ensures others { (id other : ℕ) (bytes : List ℕ) (records : List Stored) → id ≢ other
        → bytes_under other (with_record id bytes records) ≡ bytes_under other records }
{}

/// The laws of a store's file.
pub fn file_laws()
    // The bytes of a store are read as that store.
    ensures again { (records : List Stored) → IsStore records
        → file_at (store_bytes records) ≡ Ok records }
    // Whatever bytes are read, the result is a store, which is empty if they aren't a store file.
    ensures store { (bytes : List ℕ) → AreBytes bytes → IsStore (store_at bytes) }
    // The file of a store without one of its records counts one record less and lacks that record's
    // bytes. All other bytes are the same, in their order.
    ensures less { (id : ℕ) (bytes : List ℕ) (records : List Stored) → IsStore records
        → bytes_under id records ≡ Some bytes
        → LacksRecord (record { id = id; bytes = bytes }) (store_bytes records)
        (store_bytes (without id records)) }
{}

/// The numbers that limit a store and its device.
pub fn numbers_in_digits()
    ensures records { MOST_RECORDS ≡ 1_024 }
    ensures bytes { MOST_BYTES ≡ 16_384 }
    ensures range { RANGE_LENGTH ≡ 16_384 }
{}

/// Every call on a device leaves a device.
pub fn device_laws()
    ensures new { (store : List Stored) (slow : ℕ) → IsStore store → slow < 2 ^ 64
        → IsDevice (new_device store slow) }
    ensures action { (action : ℕ) (d : Device) → IsDevice d → action < 2 ^ 64
        → IsDevice (act action d) }
    ensures value { (value : ℕ) (d : Device) → IsDevice d → value < 2 ^ 64
        → IsDevice (record d { value = value }) }
    ensures range { (place : ℕ) (bytes : List ℕ) (d : Device) → IsDevice d → AreBytes bytes
        → place + length bytes ≤ range_length
        → IsDevice (record d { range = range_with place bytes d.range }) }
    ensures put { (id : ℕ) (bytes : List ℕ) (d : Device) → IsDevice d → id < 2 ^ 64 → AreBytes bytes
        → refusal_of id bytes d.store ≡ None → IsDevice (with_put id bytes d) }

    // A put leaves the store with the record, and starts the listing of identifiers again from the
    // first.
    ensures stored { (id : ℕ) (bytes : List ℕ) (d : Device)
        → with_put id bytes d ≡ record d { store = with_record id bytes d.store; cursor = 0 } }
{}
