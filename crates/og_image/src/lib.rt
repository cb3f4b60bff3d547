//! A loaded program: its segments by address, what its memory is at the start, and in which frame
//! each of its pages stands.
//!
//! Below stand program files (`og_elf`) and the names and sizes of the machine (`og_base`); above,
//! harts, flat memory, homes and the pager. The segments are kept in the order of their addresses:
//! a fetch, a load of read-only bytes and the test for a data page take one binary search each, and
//! so does finding a page's frame.
#![tactic(auto)]

mod image;
mod layout;
mod storm;
#[cfg(test)]
mod tests;

pub use image::Image;
pub use layout::{Layout, LayoutFault, all_pages};
pub use storm::storm_image;
