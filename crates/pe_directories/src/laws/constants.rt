//! The values of the format's constants.

ghost use Rattle.std.specs.Prelude.{◌≡◌};
ghost use Rattle.pe_directories.specs.declared.base_relocation.TheConstants.{IMAGE_REL_BASED_ABSOLUTE, IMAGE_REL_BASED_DIR64, IMAGE_REL_BASED_HIGH, IMAGE_REL_BASED_HIGHADJ, IMAGE_REL_BASED_HIGHLOW, IMAGE_REL_BASED_LOW};

/// The types of base relocations.
pub fn constants_of_base_relocations()
    ensures absolute { IMAGE_REL_BASED_ABSOLUTE ≡ 0 }
    ensures high { IMAGE_REL_BASED_HIGH ≡ 1 }
    ensures low { IMAGE_REL_BASED_LOW ≡ 2 }
    ensures highlow { IMAGE_REL_BASED_HIGHLOW ≡ 3 }
    ensures highadj { IMAGE_REL_BASED_HIGHADJ ≡ 4 }
    ensures dir64 { IMAGE_REL_BASED_DIR64 ≡ 10 }
{}
