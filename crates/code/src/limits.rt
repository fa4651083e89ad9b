// The limits that every layer shares.

// The largest number of places that a word may have.
pub const MAX_PLACES: usize = 64;

// The largest total of sizes at which readings are added, negated and transformed: 2^28.
pub const SUM_LIMIT: u64 = 268435456;

// The largest size of a reading in a word that is searched: 2^20.
pub const SIZE_LIMIT: u32 = 1048576;

// The largest number of rows that are searched.
pub const MAX_ROWS: usize = 24;
