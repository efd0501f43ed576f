//! The tests of sections before they are written: no two unequal ones share a byte of the file, and the data of each is
//! in the file that the image was read from. A section's data is the `size_of_raw_data` bytes at
//! `pointer_to_raw_data`. Layout: <https://learn.microsoft.com/windows/win32/debug/pe-format>, section table.

ghost use Rattle.std.specs.Prelude.{◌≡◌, ◌<◌, ◌^◌, length, IfSome, Some, is_none, not};
ghost use Rattle.std.specs.List.{list_all};
ghost use Rattle.pe_core.specs.Sections.{raw_end};
ghost use Rattle.pe_image.specs.Writing.{all_in_source, clash, clash_free, last_in_file, last_raw_end, later, same_section};
ghost use Rattle.pe_image.specs.WritingSteps.{before_next, ends_before, in_order, is_next};

use pe_core::SectionTable;

/// The file offset after the section's data.
pub fn raw_end(section: &SectionTable) -> usize
    ensures offset { result ≡ raw_end section.now }
    ensures small { result < 2 ^ 33 }
{
    section.pointer_to_raw_data as usize + section.size_of_raw_data as usize
}

/// Whether the two sections share a byte of the file and are not equal.
fn clashes(one: &SectionTable, other: &SectionTable) -> bool
    ensures { result ≡ clash one.now other.now }
{
    let start = one.pointer_to_raw_data.max(other.pointer_to_raw_data) as usize;
    start < raw_end(one).min(raw_end(other)) && *one != *other
}

/// Whether the section equals the other one, or ends at or before its start in the file.
fn ends_before(section: &SectionTable, other: &SectionTable) -> bool
    ensures { result ≡ ends_before section.now other.now }
{
    *section == *other || raw_end(section) <= other.pointer_to_raw_data as usize
}

/// Whether the section ends before the next one, or with `falls` the next one before it; equal ones do both.
fn is_before_next(section: &SectionTable, after: &[SectionTable], falls: bool) -> bool
    ensures { result ≡ before_next falls section.now after.now }
{
    match after {
        [] => true,
        [next, ..] => {
            if falls {
                ends_before(next, section)
            } else {
                ends_before(section, next)
            }
        }
    }
}

/// Whether the sections rise in the file, each at or after the end of the one before it, or with `falls` fall; equal ones
/// that are neighbours do both.
fn are_in_order(sections: &[SectionTable], falls: bool) -> bool
    ensures { result ≡ in_order falls sections.now }
{
    for i in 0..sections.len() {
        if !is_before_next(&sections[i], &sections[i + 1..], falls) {
            return false;
        }
    }
    true
}

/// The index of the first section in `after` that clashes with this one.
fn first_clash_with(section: &SectionTable, after: &[SectionTable]) -> Option<usize>
    ensures none { is_none result ≡ list_all (λ t. not (clash section.now t)) after.now }
    ensures inside { IfSome result (λ i. i < length after.now) }
{
    for i in 0..after.len() {
        if clashes(section, &after[i]) {
            return Some(i);
        }
    }
    None
}

/// Whether the section equals the next one.
fn is_next(section: &SectionTable, after: &[SectionTable]) -> bool
    ensures { result ≡ is_next section.now after.now }
{
    match after {
        [] => false,
        [next, ..] => *section == *next,
    }
}

/// The indices of the first two sections that clash, found by comparing pairs.
fn first_clashing_pair(sections: &[SectionTable]) -> Option<(usize, usize)>
    ensures { is_none result ≡ clash_free sections.now }
{
    for i in 0..sections.len() {
        let after = &sections[i + 1..];
        // A section that equals the next one clashes with the same sections as that one, so it is skipped.
        if is_next(&sections[i], after) {
            continue;
        }
        if let Some(distance) = first_clash_with(&sections[i], after) {
            return Some((i, i + 1 + distance));
        }
    }
    None
}

/// The indices of the first two sections that share a byte of the file and are not equal. `None` if there are none.
#[tactic(auto, using(crate::proofs::Clashes::ordered_is_free))]
pub fn first_clash(sections: &[SectionTable]) -> Option<(usize, usize)>
    ensures { is_none result ≡ clash_free sections.now }
{
    // Sections that rise or fall in the file cannot clash, and one pass finds that. Pairs are compared only otherwise.
    if are_in_order(sections, false) || are_in_order(sections, true) {
        None
    } else {
        first_clashing_pair(sections)
    }
}

/// The index of the first section whose data is not all in `source`.
pub fn first_outside(sections: &[SectionTable], source: &[u8]) -> Option<usize>
    ensures { is_none result ≡ all_in_source source.now sections.now }
{
    for i in 0..sections.len() {
        if source.len() < raw_end(&sections[i]) {
            return Some(i);
        }
    }
    None
}

/// The one of two sections that starts later in the file; `other` if both start at the same offset.
fn later(section: &SectionTable, other: Option<SectionTable>) -> SectionTable
    ensures { Some result ≡ later section.now other }
{
    match other {
        Some(other) if section.pointer_to_raw_data <= other.pointer_to_raw_data => other,
        _ => *section,
    }
}

/// The end of the data of the last section with the greatest raw pointer, as a file offset. 0 without sections.
pub fn last_raw_end(sections: &[SectionTable]) -> usize
    ensures { result ≡ last_raw_end sections.now }
{
    let count = sections.len();
    let mut last: Option<SectionTable> = None;
    for passed in 0..count {
        last = Some(later(&sections[count - 1 - passed], last));
    }
    match last {
        None => 0,
        Some(section) => raw_end(&section),
    }
}
