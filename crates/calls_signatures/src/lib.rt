//! What the library for C returns of Authenticode signatures: signed data, signers, certificates, names, times.
//! https://learn.microsoft.com/windows-hardware/drivers/install/authenticode
#![tactic(auto)]

pub mod elements;
pub mod name;
pub mod refused;
pub mod signature;
pub mod signer;
pub mod time;
pub mod x509;
