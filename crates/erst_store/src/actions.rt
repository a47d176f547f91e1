//! The numbers of the device: its actions (ACPI 6.5, 18.5.1.1), the addresses of its registers, and
//! its range.

/// The next EXECUTE_OPERATION writes a record.
pub const BEGIN_WRITE_OPERATION: u64 = 0;

/// The next EXECUTE_OPERATION reads a record.
pub const BEGIN_READ_OPERATION: u64 = 1;

/// The next EXECUTE_OPERATION clears a record.
pub const BEGIN_CLEAR_OPERATION: u64 = 2;

/// Ends the operation that was begun.
pub const END_OPERATION: u64 = 3;

/// Sets the offset of the record in the range.
pub const SET_RECORD_OFFSET: u64 = 4;

/// Carries out the operation that was begun.
pub const EXECUTE_OPERATION: u64 = 5;

/// Returns 1 in Value while the operation is carried out, and else 0.
pub const CHECK_BUSY_STATUS: u64 = 6;

/// Returns the status of the last operation in Value.
pub const GET_COMMAND_STATUS: u64 = 7;

/// Returns the identifier of the next record in Value, or all ones after the last.
pub const GET_RECORD_IDENTIFIER: u64 = 8;

/// Sets the identifier of the record to be read or cleared.
pub const SET_RECORD_IDENTIFIER: u64 = 9;

/// Returns the number of records in Value.
pub const GET_RECORD_COUNT: u64 = 10;

/// The next EXECUTE_OPERATION does nothing, with success.
pub const BEGIN_DUMMY_WRITE_OPERATION: u64 = 11;

/// Returns the address of the range in Value.
pub const GET_ERROR_LOG_ADDRESS_RANGE: u64 = 13;

/// Returns the length of the range in bytes in Value.
pub const GET_ERROR_LOG_ADDRESS_RANGE_LENGTH: u64 = 14;

/// Returns the attributes of the range in Value.
pub const GET_ERROR_LOG_ADDRESS_RANGE_ATTRIBUTES: u64 = 15;

/// The address of the register Action, to which the number of an action is written.
pub const ACTION_ADDRESS: u64 = 0xf000_0000;

/// The address of the register Value, which has what an action takes and returns.
pub const VALUE_ADDRESS: u64 = 0xf000_0008;

/// The address of the error log address range.
pub const RANGE_ADDRESS: u64 = 0xf001_0000;

/// The length of the error log address range in bytes.
pub const RANGE_LENGTH: usize = 16_384;

/// The attributes of the error log address range: neither non-volatile nor slow.
pub const RANGE_ATTRIBUTES: u64 = 0;
