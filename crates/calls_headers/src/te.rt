//! TE images, as firmware has them: PE images whose headers were replaced by a TE header of 40 bytes. RVAs and file offsets
//! in the file still count from the start of the PE image. The calls here subtract the bytes that the file is shorter.
//! The layout stands in the UEFI Platform Initialization specification, volume 1, "TE Image":
//! https://uefi.org/specs/PI/1.8/V1_TE_Image.html
//!
//! A reader of firmware gets the key of an image's symbols so: the header, its first CodeView entry, the record of that entry
//! by `pe_c_debug_record` in mode `MAPPED`, since an RVA is a file offset here.

ghost use Rattle.std.specs.Prelude.{◌≡◌, ◌+◌, ◌*◌, ◌≤◌, ◌++◌, drop, length};
ghost use Rattle.pe_core.specs.Refusals.{answer_of};
ghost use Rattle.pe_core.specs.Rows.{rows};
ghost use Rattle.pe_core.specs.TeImages.{reduced, reduced_section};
ghost use Rattle.pe_records.specs.DebugDirectory.{debug_entry_at};
ghost use Rattle.calls_headers.specs.Headers.{te_debug_range, te_image_at, te_section};
ghost use Rattle.calls_base.specs.Walks.{next_of, walk_of};

use calls_base::image::is_absent;
use calls_base::ranges::{Range, range_of};
use calls_base::walks::next_entry;
use pe_core::{DataDirectory, ParseOptions, Result, SIZE_OF_TE_HEADER, SectionTable, TeHeader};
use pe_records::{DebugData, IMAGE_DEBUG_DIRECTORY_SIZE, ImageDebugDirectory};

/// The header of a TE image. Its RVAs are reduced by `rva_offset`, so that they are file offsets.
#[repr(C)]
#[derive(Clone, Copy)]
pub struct TeImage {
    /// The preferred virtual address of the image.
    pub image_base: u64,
    /// The entry point.
    pub entry_point: u32,
    /// The first byte of the code.
    pub base_of_code: u32,
    /// The base relocations. Its RVA is reduced where it is absent too.
    pub reloc_dir: DataDirectory,
    /// The debug directory. Both fields are 0 where it is absent.
    pub debug_dir: DataDirectory,
    /// How many bytes the file is shorter than the PE image: the stripped bytes less the 40 of this header.
    pub rva_offset: u32,
    /// 0x5A56, "VZ".
    pub signature: u16,
    /// `IMAGE_FILE_MACHINE_*`.
    pub machine: u16,
    /// How many bytes of headers were stripped.
    pub stripped_size: u16,
    /// How many section headers follow.
    pub number_of_sections: u8,
    /// `IMAGE_SUBSYSTEM_*`.
    pub subsystem: u8,
    /// 0.
    pub spare: u32,
}

pub fn te_image_at(bytes: &[u8]) -> Result<TeImage>
    ensures { answer_of result ≡ te_image_at bytes.now }
{
    let header = TeHeader::parse(bytes)?;
    Ok(TeImage {
        image_base: header.image_base,
        entry_point: header.entry_point,
        base_of_code: header.base_of_code,
        reloc_dir: header.reloc_dir,
        debug_dir: header.debug_dir,
        rva_offset: u32::from(header.stripped_size.saturating_sub(SIZE_OF_TE_HEADER)),
        signature: header.signature,
        machine: header.machine,
        stripped_size: header.stripped_size,
        number_of_sections: header.number_of_sections,
        subsystem: header.subsystem,
        spare: 0,
    })
}

/// `number` less the fixup, modulo 2^32.
pub fn reduced(number: u32, fixup: u32) -> u32
    ensures { result ≡ reduced fixup number }
{
    number.wrapping_sub(fixup)
}

/// The section header with its RVA and its raw pointer reduced.
#[tactic(auto, unfolding(pe_core::specs::TeImages::reduced_section))]
fn reduced_section(section: SectionTable, fixup: u32) -> SectionTable
    ensures { result ≡ reduced_section fixup section }
{
    SectionTable {
        virtual_address: reduced(section.virtual_address, fixup),
        pointer_to_raw_data: reduced(section.pointer_to_raw_data, fixup),
        ..section
    }
}

/// Writes so many section headers, which follow the TE header, to the start of `room`.
#[tactic(auto, using(std::proofs::lemmas::List::take_more_set, calls_base::proofs::Rooms::kept_more, calls_base::proofs::Rooms::joined), unfolding(pe_core::specs::Rows::each))]
pub fn put_sections(bytes: &[u8], fixup: u32, count: usize, room: &mut [SectionTable])
    requires there { 40 + 40 * count ≤ length bytes.now }
    requires room { count ≤ length room.old }
    ensures { room.new ≡ rows (te_section fixup bytes.now) 40 40 count ++ drop count room.old }
{
    for i in 0..count {
        room[i] = reduced_section(SectionTable::at(bytes, 40 + 40 * i), fixup);
    }
}

#[tactic(auto, unfolding(crate::specs::Headers::te_debug_range))]
pub fn te_debug_range(bytes: &[u8], te: &TeImage) -> Result<Option<Range>>
    ensures { answer_of result ≡ te_debug_range bytes.now te.now }
{
    if is_absent(te.debug_dir) {
        return Ok(None);
    }
    // RVAs are file offsets, so no section is looked at.
    let range = DebugData::table_range(bytes, te.debug_dir, &[], 0, &ParseOptions::te())?;
    Ok(Some(range_of(range)))
}

pub fn next_te_debug_entry(
    bytes: &[u8],
    te: &TeImage,
    walk: &mut Range,
) -> Result<Option<ImageDebugDirectory>>
    ensures entry { answer_of result
        ≡ next_of (debug_entry_at te.now.rva_offset) 28 bytes.now walk.old }
    ensures walk { walk.new ≡ walk_of 28 bytes.now walk.old }
{
    match next_entry(bytes, walk, IMAGE_DEBUG_DIRECTORY_SIZE)? {
        Some(left) => Ok(Some(ImageDebugDirectory::at(left, 0, te.rva_offset))),
        None => Ok(None),
    }
}
