//! Resources as values. A leaf of the tree is a resource in one language; its type and its name are each an id or a text.
//! See Microsoft's [.rsrc section](https://learn.microsoft.com/windows/win32/debug/pe-format#the-rsrc-section).

ghost use Rattle.std.specs.Prelude.{◌≡◌};
ghost use Rattle.pe_edit.specs.Sorted.{key_before, leaf_before, units_before};
ghost use Rattle.pe_edit.specs.Views.{key_view, leaf_view};
ghost use Rattle.pe_edit.specs.Written.{NameFits, key_eq, name_fits, name_size, named, names_fit};
ghost use Rattle.pe_resource.specs.VersionStrings.{units};

use pe_core::read_u16;

/// The type or the name of a resource.
#[derive(Clone, Copy)]
pub enum ResourceKey<'a> {
    /// An id, as `RT_VERSION`.
    Id(u16),
    /// A text as UTF-16 code units, two bytes each, little-endian, without a final zero. Windows looks names up in upper
    /// case.
    Name(&'a [u8]),
}

/// A resource in one language.
#[derive(Clone, Copy)]
pub struct Resource<'a> {
    /// Its type.
    pub resource_type: ResourceKey<'a>,
    /// Its name, unique among the resources of its type.
    pub name: ResourceKey<'a>,
    /// Its language, as 1033 for US English.
    pub language: u16,
    /// The code page of its texts; most linkers write 0.
    pub code_page: u32,
    /// Its bytes.
    pub content: &'a [u8],
}

/// Whether these code units are sorted before others: by the first that differs, and a text before those that it starts.
#[tactic(auto, using(crate::proofs::Units::units_differ, crate::proofs::Units::units_equal, crate::proofs::Units::first_test, crate::proofs::Units::second_ends))]
fn units_before(first: &[u8], second: &[u8]) -> bool
    ensures { result ≡ units_before (units first.now) (units second.now) }
{
    let mut at = 0;
    while first.len() - at >= 2 && second.len() - at >= 2 {
        let own = read_u16(first, at);
        let other = read_u16(second, at);
        if own != other {
            return own < other;
        }
        at += 2;
    }
    first.len() - at < 2 && second.len() - at >= 2
}

impl<'a> ResourceKey<'a> {
    /// Whether both are the same id or the same name.
    pub fn is_same(&self, other: &ResourceKey<'_>) -> bool
        ensures { result ≡ key_eq (key_view self.now) (key_view other.now) }
    {
        match (*self, *other) {
            (ResourceKey::Id(m), ResourceKey::Id(n)) => m == n,
            (ResourceKey::Name(u), ResourceKey::Name(v)) => u == v,
            _ => false,
        }
    }

    /// Whether this is sorted before another key: names by their code units, and before ids; ids by their numbers.
    pub fn is_before(&self, other: &ResourceKey<'_>) -> bool
        ensures { result ≡ key_before (key_view self.now) (key_view other.now) }
    {
        match (*self, *other) {
            (ResourceKey::Id(m), ResourceKey::Id(n)) => m < n,
            (ResourceKey::Name(u), ResourceKey::Name(v)) => units_before(u, v),
            (ResourceKey::Name(_), ResourceKey::Id(_)) => true,
            (ResourceKey::Id(_), ResourceKey::Name(_)) => false,
        }
    }

    /// Whether a name has whole code units, and at most 65,535 of them; an id always fits.
    pub fn fits(&self) -> bool
        ensures { result ≡ name_fits (key_view self.now) }
    {
        match *self {
            ResourceKey::Id(_) => true,
            ResourceKey::Name(units) => units.len() % 2 == 0 && units.len() < 131_072,
        }
    }
}

impl<'a> ResourceKey<'a> {
    /// 1 for a name, 0 for an id.
    pub(crate) fn named(&self) -> usize
        ensures { result ≡ named (key_view self.now) }
    {
        match *self {
            ResourceKey::Id(_) => 0,
            ResourceKey::Name(_) => 1,
        }
    }

    /// How many bytes of names this is: the number of its code units, and they; none of an id.
    pub(crate) fn name_size(&self) -> usize
        requires { NameFits (key_view self.now) }
        ensures { result ≡ name_size (key_view self.now) }
    {
        match *self {
            ResourceKey::Id(_) => 0,
            ResourceKey::Name(units) => 2 + units.len(),
        }
    }
}

impl<'a> Resource<'a> {
    /// Whether its type and its name fit.
    pub(crate) fn fits(&self) -> bool
        ensures { result ≡ names_fit (leaf_view self.now) }
    {
        self.resource_type.fits() && self.name.fits()
    }

    /// Whether this is sorted before another resource: by its type, then its name, then its language.
    pub fn is_before(&self, other: &Resource<'_>) -> bool
        ensures { result ≡ leaf_before (leaf_view self.now) (leaf_view other.now) }
    {
        if !self.resource_type.is_same(&other.resource_type) {
            return self.resource_type.is_before(&other.resource_type);
        }
        if !self.name.is_same(&other.name) {
            return self.name.is_before(&other.name);
        }
        self.language < other.language
    }
}
