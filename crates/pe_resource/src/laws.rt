//! Laws over the definitions of this crate. Each law is the contract of a function that does nothing. A caller's proof
//! cites a law by calling the function.

pub mod constants;
pub mod derives;
pub mod resources;
pub mod version_blocks;
