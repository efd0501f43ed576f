//! What a signing tool hashes.

use pe_image::{Header, ParseMode, ParseOptions, Result};
use pe_sign::authenticode_ranges;
use std::alloc::Global;

/// The bytes that the Authenticode digest of an image covers, for a hash function of the caller's. A tool that hashes
/// piece by piece passes it the slices themselves, and then the zeros.
pub fn digest_input(alloc: Global, bytes: &[u8]) -> Result<Vec<u8>> {
    let opts = ParseOptions::default().with_parse_mode(ParseMode::Permissive);
    let header = Header::parse_with_opts(bytes, &opts)?;
    let ranges = authenticode_ranges(bytes, &header)?;
    let mut input = Vec::new(alloc);
    for slice in ranges.before_certificates {
        input.extend_from_slice(slice)?;
    }
    for slice in ranges.after_certificates {
        input.extend_from_slice(slice)?;
    }
    for _ in 0..ranges.zeros {
        input.push(0)?;
    }
    Ok(input)
}
