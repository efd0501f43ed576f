//! Laws of the modules of a process.

ghost use Rattle.std.specs.Prelude.{◌≡◌, ℕ, List};
ghost use Rattle.std.specs.List.{list_any};
ghost use Rattle.pe_core.specs.declared.section_table.SectionTable.{SectionTable};
ghost use Rattle.pe_lookup.specs.AddressRanges.{AreAscending};
ghost use Rattle.pe_frame.specs.Modules.{executes, is_executable};
ghost use Rattle.pe_lookup.specs.SectionSearch.{memory_size, section_start};

/// Where the sections are in ascending order and do not overlap in memory, as in a valid image, to ask the section that halving finds
/// of an RVA is to ask all of them.
#[tactic(auto, using(crate::proofs::SectionsAsked::all_asked))]
pub fn sections_in_order_are_all_asked()
    ensures { (sections : List SectionTable) (rva : ℕ) →
        AreAscending section_start memory_size sections →
        is_executable sections rva ≡ list_any (executes rva) sections }
{}
