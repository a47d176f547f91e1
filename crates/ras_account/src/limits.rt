//! How much an account counts, and the limits in force at first.

use page_policy::Limit;

/// The most names in an account.
pub const MOST_NAMES: usize = 200_000;

/// The most entries that an account counts.
pub const MOST_ENTRIES: u64 = 1 << 62;

/// The most weight that an account counts.
pub const MOST_TOTAL: u64 = 1 << 62;

/// The limit in force for pages at first: ten errors a day.
pub const FIRST_LIMIT: Limit = Limit {
    capacity: 10,
    period: 86_400,
};

/// The limit in force for modules at first: a hundred errors a day.
pub const FIRST_MODULE_LIMIT: Limit = Limit {
    capacity: 100,
    period: 86_400,
};
