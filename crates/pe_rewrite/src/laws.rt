//! Laws over the definitions. Each is the contract of a function that does nothing.

ghost use Rattle.std.specs.Prelude.{◌≡◌, ◌⊎◌, ◌+◌, ◌-◌, ◌*◌, ◌/◌, ◌%◌, ◌<◌, ◌≤◌, [], ◌∷◌, ℕ, List, Ok, Some, false, true, length, map, slice_index, slice_set, take};
ghost use Rattle.pe_core.specs.Bytes.{AreBytes, range};
ghost use Rattle.pe_core.specs.Directories.{absent_directory};
ghost use Rattle.pe_core.specs.Header.{HeaderView, OptionalHeaderView, header_at};
ghost use Rattle.pe_core.specs.SectionMap.{section_map};
ghost use Rattle.pe_core.specs.declared.options.ParseMode.{ParseMode};
ghost use Rattle.pe_core.specs.declared.options.ParseOptions.{ParseOptions};
ghost use Rattle.pe_records.specs.DebugDirectory.{debug_entry_at};
ghost use Rattle.pe_records.specs.declared.debug.ImageDebugDirectory.{ImageDebugDirectory};
ghost use Rattle.pe_resource.specs.Contents.{file_bytes};
ghost use Rattle.pe_edit.specs.Written.{Each, Leaf, Numbers, section};
ghost use Rattle.pe_rewrite.specs.Edited.{at_end, edited_of, grown_size, in_place, is_moved_over, is_pointer, is_written, removed_of, sum_of};
ghost use Rattle.pe_rewrite.specs.Removals.{emptied_of, gone_of};
ghost use Rattle.pe_rewrite.specs.Rooms.{room_of};
ghost use Rattle.pe_rewrite.specs.Places.{directory_at, headers_end, is_outside, place_of, section_headers};
ghost use Rattle.pe_rewrite.specs.WrittenImages.{IsEditedAtEnd, IsEditedAway, IsEditedEmpty, IsEditedInPlace, IsRoomRow, IsRow, edited_headers, entries_at, entry_of, entry_offset, headers_map, headers_roomy, is_emptied_at, is_emptied_over, is_gone_over, last_header, leaves_of_image, moved_entry, resized, sections_with};
ghost use Rattle.pe_sign.specs.WrittenHeaders.{headers_changed};
ghost use Rattle.pe_rewrite.specs.declared.place.Place.{Place};
ghost use Rattle.pe_rewrite.specs.declared.place.Target.{Target};
ghost use Rattle.pe_rewrite.specs.declared.room.Room.{Room};

/// An edit changes the data of the resource section, its size in memory, the entry of the resource directory and the checksum.
/// All other bytes of the file stay, those after its sections included, and no byte is added or lost.
#[tactic(auto, using(crate::proofs::WrittenImages::length_stays, crate::proofs::WrittenImages::bytes_stay))]
pub fn edits_change_no_more()
    ensures length { (b : List ℕ) (h : HeaderView) (xs : List Leaf) (p : Place) (f : List ℕ) →
        place_of b h xs ≡ Ok p → in_place b h xs ≡ Ok f → length f ≡ length b }
    ensures bytes { (b : List ℕ) (h : HeaderView) (xs : List Leaf) (p : Place) (f : List ℕ) (k : ℕ) →
        place_of b h xs ≡ Ok p → in_place b h xs ≡ Ok f → is_written h p k ≡ false →
        slice_index f k ≡ slice_index b k }
{}

/// The headers of an image that `write_edited` wrote are parsed: they are those of the image, but for the entry of the resource
/// directory and the checksum, which is that of the file, or 0 where it was 0.
#[tactic(auto, using(crate::proofs::WrittenImages::headers_parsed))]
pub fn edited_headers_are_parsed()
    ensures { (mode : ParseMode) (b : List ℕ) (h : HeaderView) (xs : List Leaf) (p : Place)
        (f : List ℕ) → header_at b mode ≡ Ok h → place_of b h xs ≡ Ok p → in_place b h xs ≡ Ok f →
        header_at f mode ≡ Ok (edited_headers p (sum_of h f) h) }
{}

/// The section headers of such an image are those of the image, but for the resource section's size in memory.
#[tactic(auto, using(crate::proofs::WrittenImages::sections_parsed))]
pub fn edited_sections_are_parsed()
    ensures { (b : List ℕ) (h : HeaderView) (xs : List Leaf) (p : Place) (f : List ℕ) (i : ℕ) →
        AreBytes b → place_of b h xs ≡ Ok p → in_place b h xs ≡ Ok f → IsRow h p i →
        section_headers f h ≡ slice_set (section_headers b h) i (resized (grown_size p) p.section) }
{}

/// By the section map of such an image every RVA outside of the resource section leads to the file offset that it led to in the
/// image, and with the image's file alignment to the same byte.
#[tactic(auto, using(crate::proofs::WrittenImages::map_is_same, crate::proofs::WrittenImages::mapped_byte))]
pub fn other_addresses_stay()
    ensures map { (o : ParseOptions) (b : List ℕ) (h : HeaderView) (xs : List Leaf) (p : Place)
        (f : List ℕ) (alignment a : ℕ) → AreBytes b → place_of b h xs ≡ Ok p →
        in_place b h xs ≡ Ok f → is_outside p.section a ≡ true →
        section_map o (section_headers f h) alignment a ≡ section_map o (section_headers b h) alignment a }
    ensures byte { (o : ParseOptions) (b : List ℕ) (h : HeaderView) (xs : List Leaf) (p : Place)
        (f : List ℕ) (w : OptionalHeaderView) (a q : ℕ) → place_of b h xs ≡ Ok p →
        in_place b h xs ≡ Ok f → h.optional_header ≡ Some w → o.resolve_rva ≡ true →
        is_outside p.section a ≡ true →
        headers_map o b h w a ≡ Some q →
        slice_index f q ≡ slice_index b q }
{}

/// The data of the resource directory of such an image, as mapped, are the section with the leaves that were given, and the
/// leaves that pe_resource's walk finds in the image, with their contents by the section map, are these leaves.
#[tactic(auto, using(crate::proofs::WrittenImages::directory_read, crate::proofs::WrittenTrees::leaves_found))]
pub fn edited_leaves_are_read()
    ensures directory { (o : ParseOptions) (b : List ℕ) (h : HeaderView) (xs : List Leaf)
        (p : Place) (f : List ℕ) (w : OptionalHeaderView) → IsEditedInPlace b h xs p f →
        h.optional_header ≡ Some w → o.resolve_rva ≡ true →
        file_bytes f p.length (headers_map o f h w
        p.section.virtual_address) ≡ Ok (section p.section.virtual_address xs) }
    ensures leaves { (o : ParseOptions) (b : List ℕ) (h : HeaderView) (xs : List Leaf) (p : Place)
        (f : List ℕ) (w : OptionalHeaderView) → Each Numbers xs → IsEditedInPlace b h xs p f →
        h.optional_header ≡ Some w → o.resolve_rva ≡ true →
        leaves_of_image o f (entry_of p) (section_headers f h) w.windows_fields.file_alignment
        ≡ Ok (map (λ x. Ok x) xs) }
{}

/// A file that an edit with some leaves writes has the resources in place, or at the end of the image: in place wherever they have
/// a place. Without leaves it is the image without resources.
#[tactic(auto, using(crate::proofs::RoomImages::one_of_two, crate::proofs::RoomImages::first_is_place))]
pub fn edits_are_in_place_or_at_the_end()
    ensures some { (b : List ℕ) (h : HeaderView) (x : Leaf) (xs : List Leaf) (f : List ℕ) →
        edited_of b h (x ∷ xs) ≡ Ok f → (in_place b h (x ∷ xs) ≡ Ok f) ⊎ (at_end b h (x ∷ xs) ≡ Ok f) }
    ensures place { (b : List ℕ) (h : HeaderView) (x : Leaf) (xs : List Leaf) (p : Place) →
        place_of b h (x ∷ xs) ≡ Ok p → edited_of b h (x ∷ xs) ≡ in_place b h (x ∷ xs) }
    ensures none { (b : List ℕ) (h : HeaderView) → edited_of b h [] ≡ removed_of b h }
{}

/// An edit at the end of the image puts bytes in where the data of the sections end: the bytes from there on, an installer's data
/// or COFF symbols, move by a multiple of the file alignment and are the same. Of the bytes before, those of some fields of the
/// headers change, of the section header, of the pointers of debug entries and of what an edit in place writes.
pub fn edits_at_the_end_change_no_more()
    ensures length { (b : List ℕ) (h : HeaderView) (xs : List Leaf) (m : Room) (f : List ℕ) →
        IsEditedAtEnd b h xs m f → length f ≡ length b + m.more }
    ensures multiple { (b : List ℕ) (h : HeaderView) (xs : List Leaf) (m : Room) (w : OptionalHeaderView) →
        room_of b h xs ≡ Ok m → h.optional_header ≡ Some w →
        m.more % w.windows_fields.file_alignment ≡ 0 }
    ensures before { (b : List ℕ) (h : HeaderView) (xs : List Leaf) (m : Room) (f : List ℕ) (k : ℕ)
        → IsEditedAtEnd b h xs m f → k < m.end → is_moved_over h m k ≡ false →
        slice_index f k ≡ slice_index b k }
    ensures after { (b : List ℕ) (h : HeaderView) (xs : List Leaf) (m : Room) (f : List ℕ) (k : ℕ) →
        IsEditedAtEnd b h xs m f → m.end ≤ k →
        slice_index f (k + m.more) ≡ slice_index b k }
{}

/// The headers of such an image are parsed: they are those of the image, but for the number of sections, the pointer to the
/// COFF symbols, the sizes of initialized data and of the image, the entry of the resource directory, and the checksum, which
/// is that of the file, or 0 where it was 0.
#[tactic(auto, using(crate::proofs::RoomImages::headers_moved))]
pub fn headers_of_edits_at_the_end_are_parsed()
    ensures { (mode : ParseMode) (b : List ℕ) (h : HeaderView) (xs : List Leaf) (m : Room)
        (f : List ℕ) → header_at b mode ≡ Ok h → IsEditedAtEnd b h xs m f →
        header_at f mode ≡ Ok (edited_headers m.place (sum_of h f) (headers_roomy m h)) }
{}

/// The section headers of such an image are those of the image, but for that of the section, which may be one more.
#[tactic(auto, using(crate::proofs::RoomImages::sections_moved))]
pub fn sections_of_edits_at_the_end_are_parsed()
    ensures { (b : List ℕ) (h : HeaderView) (xs : List Leaf) (m : Room) (f : List ℕ) (i : ℕ) →
        IsEditedAtEnd b h xs m f → IsRoomRow h m i → section_headers f (headers_roomy m h)
        ≡ sections_with i (resized (grown_size m.place) m.place.section) (section_headers b h) }
{}

/// By the section map of such an image every RVA outside of the section leads to the file offset that it led to in the image,
/// and with the image's file alignment to the same byte, unless that is in the pointer of a debug entry.
#[tactic(auto, using(crate::proofs::RoomImages::byte_moved, crate::proofs::RoomImages::map_moved))]
pub fn other_addresses_stay_at_the_end()
    ensures map { (o : ParseOptions) (b : List ℕ) (h : HeaderView) (xs : List Leaf) (m : Room)
        (f : List ℕ) (alignment a : ℕ) → IsEditedAtEnd b h xs m f →
        is_outside m.place.section a ≡ true →
        section_map o (section_headers f (headers_roomy m h)) alignment a
        ≡ section_map o (section_headers b h) alignment a }
    ensures byte { (o : ParseOptions) (b : List ℕ) (h : HeaderView) (xs : List Leaf) (m : Room)
        (f : List ℕ) (w : OptionalHeaderView) (a q : ℕ) → IsEditedAtEnd b h xs m f →
        h.optional_header ≡ Some w → o.resolve_rva ≡ true → is_outside m.place.section a ≡ true →
        headers_map o b h w a ≡ Some q → is_pointer m.debug q ≡ false →
        slice_index f q ≡ slice_index b q }
{}

/// The debug entries of such an image are those of the image, but for their pointers, which move with what moves; the data there
/// are the same bytes. The entries are those that the debug directory leads to by the section map. An edit in place leaves the
/// entries as they are, and their data that start after the headers.
pub fn debug_data_are_found_again()
    ensures entries { (b : List ℕ) (h : HeaderView) (xs : List Leaf) (m : Room) (f : List ℕ) (k : ℕ) →
        IsEditedAtEnd b h xs m f → k < m.debug.count →
        debug_entry_at 0 f (entry_offset m k) ≡ moved_entry m (debug_entry_at 0 b (entry_offset m k)) }
    ensures data { (b : List ℕ) (h : HeaderView) (xs : List Leaf) (m : Room) (f : List ℕ)
        (e : ImageDebugDirectory) → IsEditedAtEnd b h xs m f → m.end ≤ e.pointer_to_raw_data →
        range f (moved_entry m e).pointer_to_raw_data e.size_of_data
        ≡ range b e.pointer_to_raw_data e.size_of_data }
    ensures directory { (o : ParseOptions) (b : List ℕ) (h : HeaderView) (xs : List Leaf) (m : Room)
        (w : OptionalHeaderView) (q : ℕ) → room_of b h xs ≡ Ok m → h.optional_header ≡ Some w →
        o.resolve_rva ≡ true → headers_map o b h w (directory_at w 6).virtual_address ≡ Some q →
        m.debug ≡ entries_at q (directory_at w 6) }
    ensures entries_in_place { (o : ParseOptions) (b : List ℕ) (h : HeaderView) (xs : List Leaf) (p : Place)
        (f : List ℕ) (w : OptionalHeaderView) (q k : ℕ) → IsEditedInPlace b h xs p f → h.optional_header ≡ Some w →
        o.resolve_rva ≡ true → headers_map o b h w (directory_at w 6).virtual_address ≡ Some q →
        k < (directory_at w 6).size / 28 → debug_entry_at 0 f (q + 28 * k) ≡ debug_entry_at 0 b (q + 28 * k) }
    ensures data_in_place { (o : ParseOptions) (b : List ℕ) (h : HeaderView) (xs : List Leaf) (p : Place)
        (f : List ℕ) (w : OptionalHeaderView) (q k : ℕ) → IsEditedInPlace b h xs p f → h.optional_header ≡ Some w →
        o.resolve_rva ≡ true → headers_map o b h w (directory_at w 6).virtual_address ≡ Some q →
        k < (directory_at w 6).size / 28 → let e = debug_entry_at 0 b (q + 28 * k) in
        headers_end h ≤ e.pointer_to_raw_data → range f e.pointer_to_raw_data e.size_of_data
        ≡ range b e.pointer_to_raw_data e.size_of_data }
{}

/// The data of the resource directory of such an image, as mapped, are the section with the leaves that were given, and the
/// leaves that pe_resource's walk finds in the image, with their contents by the section map, are these leaves.
#[tactic(auto, using(crate::proofs::RoomImages::directory_moved, crate::proofs::RoomImages::leaves_moved))]
pub fn leaves_at_the_end_are_read()
    ensures directory { (o : ParseOptions) (b : List ℕ) (h : HeaderView) (xs : List Leaf) (m : Room)
        (f : List ℕ) (w : OptionalHeaderView) → IsEditedAtEnd b h xs m f →
        h.optional_header ≡ Some w → o.resolve_rva ≡ true →
        file_bytes f m.place.length (headers_map o f (headers_roomy m h) w
        m.place.section.virtual_address) ≡ Ok (section m.place.section.virtual_address xs) }
    ensures leaves { (o : ParseOptions) (b : List ℕ) (h : HeaderView) (xs : List Leaf) (m : Room)
        (f : List ℕ) (w : OptionalHeaderView) → Each Numbers xs → IsEditedAtEnd b h xs m f →
        h.optional_header ≡ Some w → o.resolve_rva ≡ true →
        leaves_of_image o f (entry_of m.place) (section_headers f (headers_roomy m h))
        w.windows_fields.file_alignment ≡ Ok (map (λ x. Ok x) xs) }
{}

/// The headers of an image without resources are parsed: they are those of the image, but for the entry of the resource directory,
/// which is one of zeros, and the checksum, which is that of the file, or 0 where it was 0. Where the resource section goes there
/// is one section less, and the pointer to the COFF symbols and the sizes of initialized data and of the image are others.
pub fn headers_without_resources_are_parsed()
    ensures gone { (mode : ParseMode) (b : List ℕ) (h : HeaderView) (t : Target) (m : Room) (f : List ℕ) →
        header_at b mode ≡ Ok h → IsEditedAway b h t m f →
        header_at f mode ≡ Ok (headers_changed 2 absent_directory (sum_of h f) (headers_roomy m h)) }
    ensures stayed { (mode : ParseMode) (b : List ℕ) (h : HeaderView) (t : Target) (f : List ℕ) →
        header_at b mode ≡ Ok h → IsEditedEmpty b h t f →
        header_at f mode ≡ Ok (headers_changed 2 absent_directory (sum_of h f) h) }
    ensures fields { (b : List ℕ) (h : HeaderView) (t : Target) (m : Room) → gone_of b h t ≡ Ok m →
        (m.number_of_sections + 1 ≡ h.coff_header.number_of_sections)
        × (m.size_of_image ≡ (last_header b h m).virtual_address) }
{}

/// Where the resource section of an image goes, its data are taken out of the file: the bytes after them, an installer's data or
/// COFF symbols, move back and are the same. Of the bytes before, those of some fields of the headers change, of the section
/// header, and of the entry of the resource directory. The section headers are those of the image without the last one.
pub fn last_section_goes()
    ensures length { (b : List ℕ) (h : HeaderView) (t : Target) (m : Room) (f : List ℕ) →
        IsEditedAway b h t m f → length f ≡ length b - m.more }
    ensures data { (b : List ℕ) (h : HeaderView) (t : Target) (m : Room) → gone_of b h t ≡ Ok m →
        (m.end ≡ (last_header b h m).pointer_to_raw_data)
        × (m.more ≡ (last_header b h m).size_of_raw_data) }
    ensures before { (b : List ℕ) (h : HeaderView) (t : Target) (m : Room) (f : List ℕ) (k : ℕ) →
        IsEditedAway b h t m f → k < m.end → is_gone_over h m k ≡ false →
        slice_index f k ≡ slice_index b k }
    ensures after { (b : List ℕ) (h : HeaderView) (t : Target) (m : Room) (f : List ℕ) (k : ℕ) →
        IsEditedAway b h t m f → m.end ≤ k → slice_index f k ≡ slice_index b (k + m.more) }
    ensures sections { (b : List ℕ) (h : HeaderView) (t : Target) (m : Room) (f : List ℕ) →
        IsEditedAway b h t m f →
        section_headers f (headers_roomy m h) ≡ take m.number_of_sections (section_headers b h) }
{}

/// By the section map of such an image every RVA outside of the section that went leads to the file offset that it led to in the
/// image, and with the image's file alignment to the same byte.
pub fn other_addresses_stay_without_the_section()
    ensures map { (o : ParseOptions) (b : List ℕ) (h : HeaderView) (t : Target) (m : Room)
        (f : List ℕ) (alignment rva : ℕ) → IsEditedAway b h t m f →
        is_outside (last_header b h m) rva ≡ true →
        section_map o (section_headers f (headers_roomy m h)) alignment rva
        ≡ section_map o (section_headers b h) alignment rva }
    ensures byte { (o : ParseOptions) (b : List ℕ) (h : HeaderView) (t : Target) (m : Room)
        (f : List ℕ) (w : OptionalHeaderView) (a q : ℕ) → IsEditedAway b h t m f →
        h.optional_header ≡ Some w → o.resolve_rva ≡ true →
        is_outside (last_header b h m) a ≡ true → headers_map o b h w a ≡ Some q →
        slice_index f q ≡ slice_index b q }
{}

/// Where the resource section stays, no byte is added or lost, and no section header changes. Its data become zeros if nothing else
/// is in them. All other bytes stay, but for those of the entry of the resource directory and of the checksum.
pub fn emptied_section_stays()
    ensures length { (b : List ℕ) (h : HeaderView) (t : Target) (f : List ℕ) →
        IsEditedEmpty b h t f → length f ≡ length b }
    ensures zeros { (b : List ℕ) (h : HeaderView) (t : Target) (f : List ℕ) (k : ℕ) →
        IsEditedEmpty b h t f → is_emptied_at (emptied_of b h t) k ≡ true → slice_index f k ≡ 0 }
    ensures bytes { (b : List ℕ) (h : HeaderView) (t : Target) (f : List ℕ) (k : ℕ) →
        IsEditedEmpty b h t f → is_emptied_over h t (emptied_of b h t) k ≡ false →
        slice_index f k ≡ slice_index b k }
    ensures sections { (b : List ℕ) (h : HeaderView) (t : Target) (f : List ℕ) →
        IsEditedEmpty b h t f → section_headers f h ≡ section_headers b h }
{}
