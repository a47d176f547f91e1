//! The leaky bucket of a page's corrected errors.

ghost use Rattle.std.specs.Prelude.{◌≡◌, ◌↔◌, ◌≤◌, ◌<◌, ◌+◌, IsTrue};
ghost use Rattle.std.specs.Bool.{OnTrue, OnFalse};

/// The greatest capacity of a limit.
pub const MOST_CAPACITY: u32 = 1_000_000;

/// The greatest period of a limit, in seconds.
pub const MOST_PERIOD: u32 = 10_000_000;

/// The most errors in a bucket: one fewer than the greatest capacity.
pub const MOST_COUNT: u32 = MOST_CAPACITY - 1;

/// How many corrected errors within which time are too many for a page or a module.
#[derive(Clone, Copy, Debug, PartialEq, Eq)]
pub struct Limit {
    /// The number of errors at which a bucket trips, from 1 to 1,000,000.
    pub capacity: u32,
    /// The time in which that many errors leak out of a bucket, from 1 to 10,000,000 seconds.
    pub period: u32,
}

impl Limit {
    ghost use Rattle.page_policy.specs.Buckets.{limit_of};

    /// Returns the limit of these two numbers. It is `None` if and only if one of them is out of
    /// its range.
    pub fn of(capacity: u64, period: u64) -> Option<Limit>
        ensures { result ≡ limit_of capacity period }
    {
        if (1..=u64::from(MOST_CAPACITY)).contains(&capacity)
            && (1..=u64::from(MOST_PERIOD)).contains(&period)
        {
            Some(Limit {
                capacity: capacity as u32,
                period: period as u32,
            })
        } else {
            None
        }
    }
}

/// A leaky bucket as in mcelog: it fills with a page's corrected errors, which leak out with time.
#[derive(Clone, Copy, Debug, PartialEq, Eq)]
pub struct Bucket {
    /// How many errors are in it.
    pub count: u32,
    /// The time, in seconds, when errors last leaked out; before the first leak, when the bucket
    /// was first used.
    pub stamp: u64,
}

impl Bucket {
    ghost use Rattle.page_policy.specs.Buckets.{IsLimit, IsEarly, IsFull, most_count, filled_bucket, aged_bucket, trips, bucket_after};

    /// Lets out what has leaked until `now`, in seconds, and adds a report's errors. Returns
    /// whether the bucket trips: it then had reached the limit's capacity, and is emptied. Requires
    /// a limit in its ranges and a bucket of at most `MOST_COUNT` errors.
    ///
    /// Nothing leaks until a whole period of the limit has passed since the stamp, so nothing leaks
    /// at a time before the stamp either. After that, the capacity leaks out in each period, in
    /// whole errors. If the limit's capacity is below what the bucket contains, the bucket trips
    /// whatever the weight.
    pub fn step(&mut self, limit: Limit, now: u64, weight: u16) -> bool
        requires limit { IsLimit limit }
        requires count { self.old.count ≤ most_count }
        ensures bucket { self.new ≡ bucket_after limit now weight self.old }
        ensures trips { result ≡ trips limit now weight self.old }
        ensures count { self.new.count ≤ most_count }

        // Within a period of the stamp, or before it, the count is the earlier count and the
        // weight.
        ensures early_trip { IsEarly limit now self.old
            → (IsTrue result ↔ IsFull limit (filled_bucket weight self.old)) }
        ensures early_count { IsEarly limit now self.old
            → OnFalse result (self.new ≡ filled_bucket weight self.old) }
        ensures emptied { OnTrue result (self.new.count ≡ 0) }
    {
        self.age(limit, now);
        self.count += u32::from(weight);
        let is_full = self.count >= limit.capacity;
        if is_full {
            self.count = 0;
        }
        is_full
    }

    // Lets out what has leaked until now.
    fn age(&mut self, limit: Limit, now: u64)
        requires limit { IsLimit limit }
        ensures { self.new ≡ aged_bucket limit now self.old }
    {
        let passed = now.saturating_sub(self.stamp);
        if passed < u64::from(limit.period) {
            return;
        }
        // In u128, because the product of seconds and a capacity can exceed 64 bits.
        let leaked = u128::from(passed) * u128::from(limit.capacity) / u128::from(limit.period);
        self.count -= leaked.min(u128::from(self.count)) as u32;
        self.stamp = now;
    }
}
