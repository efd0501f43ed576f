//! Imports without those that records before have too: records may share their lookup entries, or lists that start at different
//! offsets the last ones, so an image may have more imports than bytes. To know whether one is refused, and which one first,
//! each entry is read once here.

ghost use Rattle.std.specs.Prelude.{◌≡◌, ◌+◌, length, IfOk};
ghost use Rattle.pe_core.specs.Imports.{entry_size, import_data_view, import_record_view};
ghost use Rattle.pe_core.specs.SectionMap.{offset_in};
ghost use Rattle.pe_image.specs.SharedLists.{AllStand, StandsAt, counts_after, entries_left, list_offset, tested};

use pe_core::{ImportData, MappedBytes, SyntheticImportDirectoryEntry, lookup_size};
use std::alloc::{AllocError, Allocator};

/// The lookup entries of a record but for the last ones, so many as were read before their end. `counts` has how many were
/// read before each offset.
fn entries_left<'a>(
    image: &MappedBytes<'a, '_>,
    record: &SyntheticImportDirectoryEntry<'a>,
    is_64: bool,
    counts: &mut [usize],
) -> &'a [u8]
    requires stands { StandsAt (entry_size is_64) image.now.bytes.now
        (import_record_view record.now).lookups
        (list_offset (offset_in image.now.map) (import_record_view record.now)) }
    requires long { length counts.old ≡ length image.now.bytes.now + 1 }
    ensures entries { result.now ≡ entries_left (entry_size is_64) counts.old
        (import_record_view record.now).lookups
        (list_offset (offset_in image.now.map) (import_record_view record.now)) }
    ensures counts { counts.new ≡ counts_after (entry_size is_64) counts.old
        (import_record_view record.now).lookups
        (list_offset (offset_in image.now.map) (import_record_view record.now)) }
{
    let rva = record.import_directory_entry.lookups_rva();
    let Some(start) = image.map.find(rva as usize) else {
        return record.lookups;
    };
    let end = start + record.lookups.len();
    let size = lookup_size(is_64);
    let count = record.lookups.len() / size;
    let left = count.saturating_sub(counts[end]);
    counts[end] = counts[end].max(count);
    &record.lookups[..size * left]
}

/// The import directory without the lookup entries that records before have too. Its first import that is refused is that of
/// the whole directory.
#[tactic(auto, using(crate::proofs::SharedLists::reduced))]
pub fn without_shared_entries<'a, A: Allocator + Copy + Drop>(
    alloc: A,
    image: &MappedBytes<'a, '_>,
    import_data: &ImportData<'a, A>,
    is_64: bool,
) -> Result<ImportData<'a, A>, AllocError>
    requires { AllStand (offset_in image.now.map) (entry_size is_64)
        image.now.bytes.now (import_data_view import_data.now) }
    ensures { IfOk result (λ kept.
        tested (offset_in image.now.map) (entry_size is_64) image.now.bytes.now (import_data_view kept)
        ≡ tested (offset_in image.now.map) (entry_size is_64) image.now.bytes.now
        (import_data_view import_data.now)) }
{
    let mut counts = vec![in alloc; 0; image.bytes.len() + 1]?;
    let mut records = Vec::with_capacity(alloc, import_data.import_data.len())?;
    for record in &import_data.import_data {
        let lookups = entries_left(image, record, is_64, &mut counts);
        records.push(SyntheticImportDirectoryEntry {
            import_directory_entry: record.import_directory_entry,
            name: record.name,
            lookups,
        })?;
    }
    Ok(ImportData {
        import_data: records,
    })
}
