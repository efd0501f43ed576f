//! Why certificates are not attached or detached.

ghost use Rattle.std.specs.Prelude.{◌≡◌};
ghost use Rattle.pe_sign.specs.declared.error.SignError.TheVariants.{Image};

/// Why certificates can't be attached to an image, or detached from it. Offsets are file offsets.
#[derive(Debug, Drop, thiserror::Error)]
pub enum SignError {
    /// An error of the image, the certificate or the buffer: `NoOptionalHeader`; `CertificateTable` if the certificate
    /// table passes the end of the file; `Short` or `CertificateSize` if the certificate is truncated; `WriteFit` if
    /// the buffer is too small.
    #[error("{0}")]
    Image(pe_core::Error),
    /// How many data directories the optional header has, fewer than five: none of them is that of the certificates.
    #[error("no certificate directory: the optional header has {0} data directories")]
    NoDirectory(usize),
    /// The offset at which the certificate table ends, before the end of the file.
    #[error("certificate table ends at file offset {0:#x}, before the end of the file")]
    TableNotLast(usize),
    /// The offset at which the certificates start, or the file ends: the checksum, the entry of the certificate
    /// directory or the section table ends after it.
    #[error("headers end after file offset {0:#x}, where the certificates start or the file ends")]
    Headers(usize),
    /// The index of a section whose data ends after the start of the certificates, or after the end of the file.
    #[error("data of section {0} ends after the start of the certificates, or after the end of the file")]
    Section(usize),
    /// The offset of the certificate table, which is not a multiple of eight.
    #[error("certificate table at file offset {0:#x} is not aligned to 8 bytes")]
    TableOffset(usize),
    /// The image with the certificate has 2^32 bytes or more, whose offsets no header can name.
    #[error("image with the certificate has 2^32 bytes or more")]
    TooLarge,
}

// So that `?` returns an error of pe_core as `Image`.
impl From<pe_core::Error> for SignError {
    ghost from_gives = { λ error e. e ≡ Image error };

    fn from(error: pe_core::Error) -> SignError {
        SignError::Image(error)
    }
}
