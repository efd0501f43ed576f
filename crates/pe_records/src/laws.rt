//! Laws over the definitions in `specs/`. Each law is the contract of a function that does nothing.

pub mod certificates;
pub mod constants;
pub mod debug;
pub mod derives;
