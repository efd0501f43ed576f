//! Writes the parts of a file whose certificates change into the caller's buffer. Offsets count from its start. The
//! caller has checked that everything fits.

ghost use Rattle.std.specs.Prelude.{◌≡◌, ◌+◌, ◌≤◌, ◌++◌, length, take, drop};
ghost use Rattle.pe_core.specs.Bytes.{splice};
ghost use Rattle.pe_core.specs.SectionMap.{rounded_up};
ghost use Rattle.pe_sign.specs.Attaching.{padded, with_entry, with_checksum, with_both_fields};

use crate::digest::LeftOut;
use crate::image_checksum::checksum_of;
use pe_core::{DataDirectory, rounded_up, set_slice, set_u32, set_zeros};

/// Certificates start at a multiple of this many bytes.
pub const UNIT: usize = 8;

/// Writes a slice at an offset, and zeros after it up to a multiple of eight bytes from the offset on.
fn set_padded(out: &mut [u8], offset: usize, slice: &[u8])
    requires { offset + rounded_up (length slice.now) 8 ≤ length out.old }
    ensures { out.new ≡ splice out.old offset (padded slice.now) }
{
    set_slice(out, offset, slice);
    let end = offset + slice.len();
    set_zeros(out, end, (UNIT - slice.len() % UNIT) % UNIT);
}

/// Writes at the start of the buffer what stays of a file, and then a certificate, each with its zeros.
pub fn set_joined(out: &mut [u8], kept: &[u8], certificate: &[u8])
    requires { rounded_up
        (length kept.now) 8 + rounded_up (length certificate.now) 8 ≤ length out.old }
    ensures { out.new ≡ splice out.old 0 (padded kept.now ++ padded certificate.now) }
{
    set_padded(out, 0, kept);
    set_padded(out, rounded_up(kept.len(), UNIT), certificate);
}

/// Writes the entry of the certificate directory.
#[tactic(auto, unfolding(crate::specs::Attaching::with_entry))]
fn set_entry(out: &mut [u8], left_out: &LeftOut, entry: DataDirectory)
    requires { left_out.now.directory_entry.offset + 8 ≤ length out.old }
    ensures { out.new ≡ with_entry left_out.now entry out.old }
{
    let offset = left_out.directory_entry.offset;
    set_u32(out, offset, entry.virtual_address);
    set_u32(out, offset + 4, entry.size);
}

/// Writes the checksum of the file that is the first `end` bytes of the buffer.
#[tactic(auto, using(crate::proofs::Writes::checksum_set))]
fn set_checksum(out: &mut [u8], end: usize, left_out: &LeftOut)
    requires inside { end ≤ length out.old }
    requires field { left_out.now.checksum.offset + 4 ≤ end }
    ensures { out.new ≡ with_checksum left_out.now (take end out.old) ++ drop end out.old }
{
    let field = left_out.checksum.offset;
    let sum = checksum_of(&out[..end], field);
    set_u32(out, field, sum);
}

/// Writes the entry of the certificate directory and then the checksum into the file that is the first `end` bytes of
/// the buffer.
#[tactic(auto, using(crate::proofs::Writes::fields_set))]
pub fn set_fields(out: &mut [u8], end: usize, left_out: &LeftOut, entry: DataDirectory)
    requires inside { end ≤ length out.old }
    requires field { left_out.now.checksum.offset + 4 ≤ end }
    requires entry { left_out.now.directory_entry.offset + 8 ≤ end }
    ensures { out.new ≡ with_both_fields left_out.now entry (take end out.old) ++ drop end out.old }
{
    set_entry(out, left_out, entry);
    set_checksum(out, end, left_out);
}
