//! Writes the headers before the section table: DOS header, stub, PE signature, COFF header and optional header.
//! Layout: <https://learn.microsoft.com/windows/win32/debug/pe-format>.

ghost use Rattle.std.specs.Prelude.{◌≡◌, IsTrue, length};
ghost use Rattle.pe_core.specs.Header.{header_view, optional_header_view};
ghost use Rattle.pe_core.specs.Refusals.{Returns};
ghost use Rattle.pe_image.specs.Overlay.{all_fit};
ghost use Rattle.pe_image.specs.Pieces.{header_pieces};
ghost use Rattle.pe_image.specs.WritingSteps.{all_end, put_in_turn};

use crate::write::ends::piece_end;
use crate::write::records::{optional_size, set_coff, set_dos, set_optional};
use pe_core::{Header, OptionalHeader, Result, set_slice, set_u32};

/// The greatest end of the headers: that of the stub or of the optional header. `WriteFit` if no buffer is so long.
#[tactic(auto, using(crate::proofs::Ends::headers_reach))]
pub fn headers_end(header: &Header<'_>, optional: &OptionalHeader) -> Result<usize>
    ensures { Returns result (all_end
        (header_pieces (header_view header.now) (optional_header_view optional.now))) }
{
    let stub = piece_end(64, header.dos_stub.len())?;
    let offset = header.dos_header.pe_pointer as usize + 24;
    let optional = piece_end(offset, optional_size(optional))?;
    Ok(stub.max(optional))
}

/// Writes the headers. The caller has checked that they fit.
#[tactic(auto, using(crate::proofs::WrittenHeaders::headers_fit), unfolding(crate::specs::Pieces::header_pieces, crate::specs::WritingSteps::put_in_turn))]
pub fn set_headers(buffer: &mut [u8], header: &Header<'_>, optional: &OptionalHeader)
    requires { IsTrue (all_fit (length buffer.old)
        (header_pieces (header_view header.now) (optional_header_view optional.now))) }
    ensures { buffer.new ≡ put_in_turn buffer.old
        (header_pieces (header_view header.now) (optional_header_view optional.now)) }
{
    let offset = header.dos_header.pe_pointer as usize;
    set_dos(buffer, 0, &header.dos_header);
    set_slice(buffer, 64, header.dos_stub);
    set_u32(buffer, offset, header.signature);
    set_coff(buffer, offset + 4, &header.coff_header);
    set_optional(buffer, offset + 24, optional);
}
