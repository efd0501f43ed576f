//! What a signing tool needs of an image: its checksum, the bytes that its Authenticode digest covers, and calls that
//! attach a certificate to it and detach the certificates that it has.
//!
//! A signature must survive being attached to the image that it signs. So its digest leaves out three parts of the
//! file: the checksum, the entry of the data directories that says where the certificates are, and the certificates.
//! See Microsoft's [Process for Generating the Authenticode PE Image Hash][process].
//!
//! A caller feeds the slices of [`AuthenticodeRanges`] and then as many bytes of zero as its `zeros` says to a hash
//! function of its choice, and hands what it signed to [`attach`], which writes the checksum too. After any other
//! change of the image, [`checksum`] is what its header's field has to hold.
//!
//! [process]: https://learn.microsoft.com/windows/win32/debug/pe-format#process-for-generating-the-authenticode-pe-image-hash
#![tactic(auto)]

mod attachment;
mod checks;
mod digest;
mod error;
mod file_ranges;
mod image_checksum;
pub mod laws;
mod put;

pub use attachment::{Placement, attach, attached_len, detach, detached_len};
pub use digest::{AuthenticodeRanges, LeftOut, authenticode_ranges, left_out};
pub use error::SignError;
pub use file_ranges::{DigestRanges, digest_ranges};
pub use image_checksum::{checksum, checksum_range};
