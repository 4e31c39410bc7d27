//! Why calls are refused, in words: a sentence for each refusal. Two printers have them from here,
//! that of `checks` in Rattle and that of `rust/cam` in Rust. So this file has to be valid in both:
//! string constants, and nothing else.

/// Refusal 1.
pub const BAD_GEOMETRY: &str = "no such geometry";

/// Refusal 2.
pub const BAD_LENGTHS: &str = "a table or match word of the wrong length";

/// Refusal 3.
pub const BAD_ADDRESS: &str = "address out of range";

/// Refusal 4.
pub const BAD_PATTERN: &str = "pattern out of range";

/// Refusal 5.
pub const BAD_ENTRY: &str = "the entry there is no pattern";

/// Refusal 6.
pub const FALSE_SET: &str = "an indicated set does not hold the key";

/// Refusal 10.
pub const BAD_TABLES: &str = "no history leaves these tables";
