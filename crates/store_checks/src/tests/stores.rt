//! The record store's file.
use erst_store::{Store, StoreRefused};
use std::alloc::Global;
use std::test::Fail;

// The file of the store of one record, under 6, of one byte 00.
const ONE_RECORD: &[u8] = b"RASERST1\x01\0\0\0\x06\0\0\0\0\0\0\0\x01\0\0\0\0";

// Returns the file of a store into which this is put.
fn file_with(alloc: Global, id: u64, bytes: &[u8]) -> Result<Vec<u8>, Fail> {
    let mut store = Store::new(alloc);
    match store.put(id, bytes) {
        Ok(()) => Ok(store.to_bytes(alloc)?),
        Err(_) => Err("the record is put".into()),
    }
}

// Returns how many records a store file has; `None` if the bytes are malformed.
fn count_in(alloc: Global, bytes: &[u8]) -> Result<Option<usize>, Fail> {
    match Store::from_bytes(alloc, bytes) {
        Ok(store) => Ok(Some(store.len())),
        Err(StoreRefused::Malformed) => Ok(None),
        Err(StoreRefused::NoMemory) => Err("memory is left".into()),
    }
}

#[test]
fn file_of_one_record(rt: HostRuntime) -> Result<(), Fail> {
    let bytes = file_with(rt.alloc(), 6, &[0])?;
    assert!(rt; bytes.as_slice() == ONE_RECORD);
    assert!(rt; count_in(rt.alloc(), ONE_RECORD)? == Some(1));
    assert!(rt; count_in(rt.alloc(), &ONE_RECORD[..24])? == None);
    Ok(())
}
