//! Facts that a program proves of its own calls, from the contracts and the laws of the libraries alone: no lemma stands
//! here, one definition, the digest that a signature names, and one proof file, which says by which laws
//! `attached_signatures_are_read` follows.
//!
//! The calls need `pe_image` and `pe_plan` in `crates.txt`, and the laws of `signing` need `pe_sign`, `pe_records` and
//! `pe_pkcs7`. Each other crate is named there for the definitions that the contracts here cite: those of options (`pe_core`), of debug
//! data (`pe_records`), of links (`pe_unwind`).
#![tactic(auto)]

mod modes;
mod plans;
mod signing;

pub use modes::{debug_data, debug_data_of_both_modes, libraries_of_both_modes};
pub use plans::{is_endless, root_record};
pub use signing::{
    attach_and_detach, attach_with_checksum, attached_certificates_are_listed,
    attached_signatures_are_read, digests_of_both, named_digest, named_digests_are_read,
    slices_and_ranges,
};
