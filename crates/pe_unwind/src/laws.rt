//! Laws over the definitions in `specs/`. Each law is the contract of a function that does nothing.

pub mod arm64;
pub mod derives;
pub mod x64;
