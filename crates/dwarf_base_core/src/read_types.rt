//! Plain types that readers of units use.

/// An offset in bytes from the start of a unit's header.
#[derive(Debug, Clone, Copy, PartialEq, Eq, PartialOrd, Ord, Hash)]
pub struct UnitOffset<T>(pub T);

/// Marks a reader's storage as one on the heap that grows as it is needed.
#[derive(Debug, Clone, Copy, PartialEq, Eq)]
pub struct StoreOnHeap;
