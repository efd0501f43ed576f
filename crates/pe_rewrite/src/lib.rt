//! The resources of an image changed: the file of an image with other resources in the place of those that it has.
//!
//! A caller reads the leaves that are there with pe_resource, changes the list, and hands it to [`write_edited`]. Everything
//! else in the image stays as it was, but for the sizes of the section and of its directory, and the checksum.
#![tactic(auto)]

mod debug;
mod directory;
mod edit;
mod error;
pub mod laws;
mod place;
mod put;
mod relocation;
mod removal;
mod room;

pub use edit::{edited_len, write_edited};
pub use error::RewriteError;
