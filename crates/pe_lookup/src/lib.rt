//! Lookups by halving: of an address in ranges that ascend, and of an RVA by an index of an image's sections. Stack walks look up
//! modules and memory so, and the library for C the sections of images that have many.
#![tactic(auto)]

mod address_ranges;
mod bits;
mod section_index;
mod section_search;

pub use address_ranges::{
    AddressRange, first_overlap, first_with, has_address, range_near, range_with, started,
};
pub use bits::{bits_of, power_of_two};
pub use section_index::{number_found, numbered, sections_by, start_by};
pub use section_search::section_started;
