//! The certificates that a writer writes: those that a caller has, or those of the table in a file, which are read again while
//! they are written, so that a list of them takes no memory. Layout:
//! <https://learn.microsoft.com/windows/win32/debug/pe-format>, attribute certificate table.

ghost use Rattle.std.specs.Prelude.{◌≡◌, ◌==◌, None, if◌then◌else◌, length, map};
ghost use Rattle.pe_core.specs.Header.{header_view};
ghost use Rattle.pe_core.specs.Refusals.{ReturnsAs};
ghost use Rattle.pe_records.specs.Certificates.{certificate_view, certificates_at};
ghost use Rattle.pe_image.specs.CertificateLists.{IsFirst, certificate_views, listed};
ghost use Rattle.pe_image.specs.Fields.{certificate_field, list_by_mode};
ghost use Rattle.pe_image.specs.Layout.{directory};

use pe_core::{DataDirectory, Error, Header, ParseMode, ParseOptions, Reason, Result};
use pe_records::AttributeCertificate;

/// Certificates, in the order in which they are written.
#[derive(Clone, Copy)]
pub enum CertificateList<'a> {
    /// As values.
    Values(&'a [AttributeCertificate<'a>]),
    /// Some of a table, as `read` returns them: the file, the offset of the first, and how many. An invalid one and those
    /// after it are left out.
    Table(&'a [u8], usize, usize),
}

/// The first of some certificates, and those after it.
fn first_value<'a>(
    values: &'a [AttributeCertificate<'a>],
) -> Option<(AttributeCertificate<'a>, CertificateList<'a>)>
    ensures { IsFirst (map certificate_view values.entry.now) result }
{
    let (first, rest) = values.split_first()?;
    let certificate = AttributeCertificate {
        length: first.length,
        revision: first.revision,
        certificate_type: first.certificate_type,
        certificate: first.certificate,
    };
    Some((certificate, CertificateList::Values(rest)))
}

/// The first of `count` certificates from the offset on, and those after it.
#[tactic(auto, unfolding(crate::specs::CertificateLists::listed))]
fn first_in_table<'a>(
    bytes: &'a [u8],
    offset: usize,
    count: usize,
) -> Option<(AttributeCertificate<'a>, CertificateList<'a>)>
    ensures { IsFirst (listed bytes.entry.now count offset) result }
{
    if count == 0 {
        return None;
    }
    let mut after = offset;
    match AttributeCertificate::parse(bytes, &mut after) {
        Ok(certificate) => Some((certificate, CertificateList::Table(bytes, after, count - 1))),
        Err(_) => None,
    }
}

/// The certificate directory of these headers. `None` also if the options leave certificates out.
fn wanted_directory(header: &Header<'_>, opts: &ParseOptions) -> Option<DataDirectory>
    ensures { result ≡ (if opts.now.parse_attribute_certificates
        then directory 4 (header_view header.now).optional_header else None) }
{
    if !opts.parse_attribute_certificates {
        return None;
    }
    match &header.optional_header {
        None => None,
        Some(optional) => optional.data_directories.get_certificate_table(),
    }
}

impl<'a> CertificateList<'a> {
    /// The certificates of a table, in file order. `address` is the table's file offset and `size` its size in bytes, as the
    /// certificate directory has them. Errors: those of `enumerate_certificates`, in the same order.
    #[tactic(auto, using(pe_records::proofs::CertificateListings::next_above, crate::proofs::TableLists::none_counted, crate::proofs::TableLists::one_more, crate::proofs::TableLists::all_counted, crate::proofs::TableLists::one_refused, crate::proofs::TableLists::past))]
    pub fn read(bytes: &'a [u8], address: usize, size: usize) -> Result<CertificateList<'a>>
        ensures { ReturnsAs certificate_views result
            (certificates_at bytes.entry.now address size) }
    {
        if bytes.len() < size || bytes.len() - size < address {
            // The sum of offset and size may pass a `usize`; the error reports it up to the greatest `u64`.
            let end = (address as u64).saturating_add(size as u64);
            return Err(Error::Malformed(Reason::CertificateTable(end)));
        }
        let end = address + size;
        let mut offset = address;
        let mut count = 0;
        while offset < end {
            AttributeCertificate::parse(bytes, &mut offset)?;
            count += 1;
        }
        Ok(CertificateList::Table(bytes, address, count))
    }

    /// The certificates of an image with these headers, as `PE::parse_with_opts` reads them: none without their directory or
    /// if `parse_attribute_certificates` is off. An invalid table is an error in strict mode, and has none in permissive mode.
    /// Errors: those of `read`.
    #[tactic(auto, unfolding(crate::specs::CertificateLists::listed))]
    pub fn of_image(
        bytes: &'a [u8],
        header: &Header<'_>,
        opts: &ParseOptions,
    ) -> Result<CertificateList<'a>>
        ensures { ReturnsAs certificate_views result (list_by_mode opts.now.parse_mode
            (certificate_field bytes.entry.now opts.now (header_view header.now).optional_header)) }
    {
        let Some(directory) = wanted_directory(header, opts) else {
            return Ok(CertificateList::Table(bytes, 0, 0));
        };
        let offset = directory.virtual_address as usize;
        match CertificateList::read(bytes, offset, directory.size as usize) {
            Err(_) if opts.parse_mode == ParseMode::Permissive => {
                Ok(CertificateList::Table(bytes, 0, 0))
            }
            read => read,
        }
    }

    /// The first certificate, and those after it. `None` if there is none.
    pub(crate) fn first(&self) -> Option<(AttributeCertificate<'a>, CertificateList<'a>)>
        ensures { IsFirst (certificate_views self.now) result }
    {
        match *self {
            CertificateList::Values(values) => first_value(values),
            CertificateList::Table(bytes, offset, count) => first_in_table(bytes, offset, count),
        }
    }

    /// Whether there is no certificate.
    pub(crate) fn is_empty(&self) -> bool
        ensures { result ≡ (length (certificate_views self.now) == 0) }
    {
        self.first().is_none()
    }
}
