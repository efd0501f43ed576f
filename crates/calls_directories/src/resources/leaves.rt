//! All leaves of a resource tree: each resource in each language. The tree has three levels: types, names, languages. A walk is
//! a position in the tree, in numbers; callers may copy it, and store it.
//! https://learn.microsoft.com/windows/win32/debug/pe-format#the-rsrc-section

ghost use Rattle.std.specs.Prelude.{◌≡◌, ◌≤◌, ◌^◌, IfOk, IfSome, Ok};
ghost use Rattle.std.specs.Option.{option_map};
ghost use Rattle.pe_core.specs.Offsets.{IsWithin};
ghost use Rattle.pe_core.specs.Refusals.{Returns, ReturnsAs, answer_of};
ghost use Rattle.pe_resource.specs.Contents.{file_range};
ghost use Rattle.pe_resource.specs.LeafPositions.{leaf_start, tree_at, tree_view};
ghost use Rattle.pe_resource.specs.Leaves.{tree_answer};
ghost use Rattle.calls_base.specs.Modes.{options_of};
ghost use Rattle.calls_base.specs.KeptSections.{map_kept};
ghost use Rattle.calls_directories.specs.KeptWalks.{StepsKeptLeaves};
ghost use Rattle.calls_base.specs.Views.{map_of, may_map};
ghost use Rattle.calls_directories.specs.ResourceLeaves.{after_item, content_of, first_item, items_left, leaf_reported, leaves_walk, name_in, position_of, walk_at};
ghost use Rattle.calls_base.specs.HandsOut.{result_number};
ghost use Rattle.calls_base.specs.Lists.{Numbered};
ghost use Rattle.calls_directories.specs.VersionBlocks.{StepsVersionBlocks};
ghost use Rattle.calls_base.specs.TreeResults.{tree_number};

use crate::resources::version::range_by;
use crate::resources::version_blocks::{VersionBlock, next_block};
use calls_base::image::directory;
use calls_base::kept_sections::{KeptSections, kept_after, sections_for};
use calls_base::lists::{Steps, numbered};
use calls_base::ranges::{NO_BYTES, Range, range_of, slice_of};
use calls_base::results::{DONE, number_of, number_of_tree, options};
use calls_base::view::{View, sections_of};
use pe_core::{ByteRange, DataDirectory, MappedBytes, Result};
use pe_resource::{LeafPosition, ResourceData, ResourceEntry, ResourceTreeError};

/// What names a type, a resource or a language: an id, or a name.
#[repr(C)]
#[derive(Clone, Copy)]
pub struct ResourceName {
    /// The name in UTF-16 code units, little-endian, without a final zero; the empty range with an id.
    pub name: Range,
    /// The id; 0 with a name.
    pub id: u32,
    /// 1 with a name, else 0.
    pub has_name: u32,
}

/// A leaf of a resource tree: a resource in one language.
#[repr(C)]
#[derive(Clone, Copy)]
pub struct ResourceLeaf {
    /// An id is one of `RT_*` of winuser.h.
    pub resource_type: ResourceName,
    /// The resource among those of its type.
    pub name: ResourceName,
    /// An id is a language identifier of Windows, 0 for any language.
    pub language: ResourceName,
    /// The content; the empty range where `content_result` is not 0.
    pub content: Range,
    /// 0, or why the content is not in the file: `UNMAPPED`, `RESOURCE_BOUNDS`.
    pub content_result: u32,
    /// RVA of the content.
    pub rva: u32,
    /// Bytes of the content.
    pub size: u32,
    /// The code page of texts in the content, mostly 0.
    pub code_page: u32,
}

/// Where a walk over the leaves of a resource tree stands. The ranges of entries count from the start of the data.
#[repr(C)]
#[derive(Clone, Copy)]
pub struct ResourceLeaves {
    /// The data of the resource directory in the file.
    pub tree: Range,
    /// The entries of the types that are left.
    pub types: Range,
    /// The entries of the names that are left of a type.
    pub names: Range,
    /// The entries of the languages that are left of a name.
    pub languages: Range,
    /// The entry of the type that the names are of.
    pub resource_type: ResourceEntry,
    /// The entry of the name that the languages are of.
    pub name: ResourceEntry,
}

/// A walk over the leaves of a resource tree.
#[repr(C)]
#[derive(Clone, Copy)]
pub struct LeafWalk {
    /// Where it stands.
    pub leaves: ResourceLeaves,
    /// The sections of its last RVAs.
    pub kept: KeptSections,
}

fn byte_range(range: &Range) -> ByteRange
    ensures offset { result.offset ≡ range.now.offset }
    ensures length { result.length ≡ range.now.length }
{
    ByteRange {
        offset: range.offset as usize,
        length: range.length as usize,
    }
}

/// Where a walk stands, in the numbers of pe_resource.
pub fn position_of(walk: &ResourceLeaves) -> LeafPosition
    ensures { result ≡ position_of walk.now }
{
    LeafPosition {
        types: byte_range(&walk.types),
        resource_type: walk.resource_type,
        names: byte_range(&walk.names),
        name: walk.name,
        languages: byte_range(&walk.languages),
    }
}

/// The walk at a position in the data.
pub fn walk_at(tree: Range, position: &LeafPosition) -> ResourceLeaves
    ensures position { position_of result ≡ position.now }
    ensures tree { result.tree ≡ tree }
    ensures value { result ≡ walk_at tree position.now }
{
    ResourceLeaves {
        tree,
        types: range_of(position.types),
        names: range_of(position.names),
        languages: range_of(position.languages),
        resource_type: position.resource_type,
        name: position.name,
    }
}

/// The name of an entry of data that start at a file offset. `Short` where it is truncated.
pub fn name_in(start: u64, data: &[u8], entry: ResourceEntry) -> Result<ResourceName>
    requires { start ≤ 2 ^ 63 }
    ensures { answer_of result ≡ name_in start data.now entry }
{
    Ok(match entry.name_units(data)? {
        Some(units) => ResourceName {
            name: Range {
                offset: start + (u64::from(entry.name_offset()) + 2),
                length: units.len() as u64,
            },
            id: 0,
            has_name: 1,
        },
        None => ResourceName {
            name: NO_BYTES,
            id: entry.name_or_id % 0x1_0000,
            has_name: 0,
        },
    })
}

/// Where the content of a leaf is: its range and 0, or the empty range and why there is none.
fn content_of(view: &View, kept: KeptSections, leaf: &pe_resource::ResourceLeaf) -> (Range, u32)
    ensures { result ≡ content_of view.now.bytes.now (map_kept view.now kept) leaf.now.data_entry }
{
    let sections = sections_for(view, kept, leaf.data_entry.offset_to_data);
    match range_by(view, sections, &leaf.data_entry) {
        Ok(range) => (range_of(range), DONE),
        Err(error) => (NO_BYTES, number_of(&error)),
    }
}

fn leaf_reported(
    view: &View,
    kept: KeptSections,
    start: u64,
    data: &[u8],
    leaf: &pe_resource::ResourceLeaf,
) -> Result<ResourceLeaf>
    requires { start ≤ 2 ^ 63 }
    ensures { answer_of result
        ≡ leaf_reported view.now.bytes.now (map_kept view.now kept) start data.now leaf.now }
{
    let resource_type = name_in(start, data, leaf.resource_type)?;
    let name = name_in(start, data, leaf.name)?;
    let language = name_in(start, data, leaf.language)?;
    let (content, content_result) = content_of(view, kept, leaf);
    Ok(ResourceLeaf {
        resource_type,
        name,
        language,
        content,
        content_result,
        rva: leaf.data_entry.offset_to_data,
        size: leaf.data_entry.size,
        code_page: leaf.data_entry.code_page,
    })
}

/// A walk that is over.
const OVER: ResourceLeaves = ResourceLeaves {
    tree: NO_BYTES,
    types: NO_BYTES,
    names: NO_BYTES,
    languages: NO_BYTES,
    resource_type: NO_ENTRY,
    name: NO_ENTRY,
};

/// An entry that no walk looks at.
const NO_ENTRY: ResourceEntry = ResourceEntry {
    name_or_id: 0,
    offset_to_data_or_directory: 0,
};

/// Where the data of a resource directory are, and the position before the first leaf.
pub fn leaf_position(
    view: &View,
    directory: DataDirectory,
) -> Result<Option<(ByteRange, LeafPosition)>>
    ensures tree { ReturnsAs (option_map (tree_view view.now.bytes.now)) result
        (tree_at (options_of view.now.image.now.mode) view.now.bytes.now directory
        (may_map view.now directory.virtual_address) view.now.image.now.file_alignment) }
    ensures place { IfOk result (λ x. IfSome x (λ x. file_range view.now.bytes.now directory.size
        (map_of view.now directory.virtual_address) ≡ Ok x.0)) }
    ensures within { IfOk result (λ x. IfSome x (λ x. IsWithin view.now.bytes.now x.0)) }
    ensures value { Returns result
        (leaf_start (options_of view.now.image.now.mode) view.now.bytes.now directory
        (may_map view.now directory.virtual_address) view.now.image.now.file_alignment) }
{
    let alignment = view.image.file_alignment;
    let opts = options(view.image.mode);
    let sections = sections_of(view, directory.virtual_address);
    let image = MappedBytes::new(view.bytes, sections, alignment, &opts);
    ResourceData::leaf_position(&image, directory)
}

/// The next leaf of a walk, by these sections first. It is over after an error.
#[tactic(auto, using(crate::proofs::LeafRuns::over_has_none))]
pub fn next_leaf(
    view: &View,
    kept: KeptSections,
    walk: &mut ResourceLeaves,
) -> std::result::Result<Option<ResourceLeaf>, ResourceTreeError>
    ensures leaf { tree_answer result
        ≡ first_item (items_left view.now.bytes.now (map_kept view.now kept) walk.old) }
    ensures left { items_left view.now.bytes.now (map_kept view.now kept) walk.new
        ≡ after_item (items_left view.now.bytes.now (map_kept view.now kept) walk.old) }
    ensures walk { walk.new ≡ leaves_walk view.now.bytes.now (map_kept view.now kept) walk.old }
{
    let tree = walk.tree;
    let mut position = position_of(walk);
    *walk = OVER;
    let data = slice_of(view.bytes, &tree)?;
    let Some(item) = position.next(data) else {
        return Ok(None);
    };
    let leaf = leaf_reported(view, kept, tree.offset, data, &item?)?;
    *walk = walk_at(tree, &position);
    Ok(Some(leaf))
}

/// One step of a walk.
pub fn step_leaf(
    view: &View,
    walk: &mut LeafWalk,
) -> std::result::Result<Option<ResourceLeaf>, ResourceTreeError>
    ensures { StepsKeptLeaves view.now walk.old (tree_answer result) walk.new }
{
    let given = next_leaf(view, walk.kept, &mut walk.leaves);
    if let Ok(Some(leaf)) = &given {
        walk.kept = kept_after(view, walk.kept, leaf.rva);
    }
    given
}

/// Steps over the leaves of a resource tree.
#[derive(Clone, Copy)]
pub struct Leaves<'a> {
    pub view: &'a View<'a>,
}

impl<'a> Steps<LeafWalk, ResourceLeaf> for Leaves<'a> {
    ghost steps = { λ s. Numbered tree_number (StepsKeptLeaves s.view.now) };

    fn step(&self, walk: &mut LeafWalk) -> std::result::Result<Option<ResourceLeaf>, u32> {
        match step_leaf(self.view, walk) {
            Ok(leaf) => Ok(leaf),
            Err(error) => Err(number_of_tree(&error)),
        }
    }
}

/// Steps over blocks of version information.
#[derive(Clone, Copy)]
pub struct Blocks<'a> {
    pub bytes: &'a [u8],
}

impl<'a> Steps<Range, VersionBlock> for Blocks<'a> {
    ghost steps = { λ s. Numbered result_number (StepsVersionBlocks s.bytes.now) };

    fn step(&self, walk: &mut Range) -> std::result::Result<Option<VersionBlock>, u32> {
        numbered(next_block(self.bytes, walk))
    }
}
