//! The places of the entries that journals tell: each has to stand once, and none may be missing.
//!
//! Start at `specs/Places/Places.antt`, which says which place is told of some that aren't so. `sort_by_place` puts them in
//! order, `least_twice` finds the least that stands twice, and `least_missing` the least that doesn't stand.

mod sorting;
mod spot;
mod walking;

pub use sorting::sort_by_place;
pub use spot::Spot;
pub use walking::{least_missing, least_twice};
