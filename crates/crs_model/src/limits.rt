//! The limits of models.

/// The most bytes of a models text.
pub const SIZE_LIMIT: usize = 1 << 20;

/// The most declared names, derived ones included.
pub const NAME_LIMIT: usize = 256;

/// The most arguments of a declared name.
pub const ARITY_LIMIT: u64 = 8;

/// The most values in the list of an attribute, or of a variable.
pub const VALUE_LIMIT: usize = 64;

/// The most chronicles.
pub const CHRONICLE_LIMIT: usize = 64;

/// The most events of a chronicle.
pub const EVENT_LIMIT: usize = 16;

/// The most points of a chronicle, those of its events and the free ones.
pub const POINT_LIMIT: usize = 24;

/// The most statements of a chronicle that bound the distance of two points.
pub const DISTANCE_LIMIT: usize = 256;

/// The most variables of a chronicle.
pub const VARIABLE_LIMIT: usize = 16;

/// The most pairs of variables of a chronicle that differ.
pub const DIFFERENCE_LIMIT: usize = 64;

/// The most windows of a chronicle.
pub const WINDOW_LIMIT: usize = 16;

/// The most entries that each recognition of a chronicle gives.
pub const EMIT_LIMIT: usize = 8;

/// The greatest level of an event.
pub const LEVEL_LIMIT: u64 = 7;

/// The greatest number of entries that a window counts.
pub const COUNT_LIMIT: u64 = (1 << 32) - 1;

/// The greatest size of a bound and of an offset, in ticks.
pub const TICK_LIMIT: u64 = 1 << 40;
