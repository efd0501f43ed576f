//! Calls on resources: the tree, its leaves, version information, over calls_directories.

ghost use Rattle.std.specs.Prelude.{Ok};
ghost use Rattle.calls_base.specs.HandsOut.{HandsOutIf, result_number};
ghost use Rattle.calls_base.specs.Views.{directory_sections, may_map};
ghost use Rattle.calls_directories.specs.ResourceLeaves.{StartsLeaves, image_tree, leaves_start, walk_at};
ghost use Rattle.calls_directories.specs.VersionBlocks.{HandsOutBlocks, StepsVersionBlocks};
ghost use Rattle.calls_directories.specs.Versions.{HandsOutManifest, fixed_in, name_at, text_in};
ghost use Rattle.pe_core.specs.Refusals.{Returns};
ghost use Rattle.calls_directories.specs.KeptWalks.{StepsKeptLeaves};
ghost use Rattle.calls_base.specs.Lists.{HandsOutList, Numbered};
ghost use Rattle.calls_base.specs.TreeResults.{tree_number};

use calls_base::image::{RESOURCE_TABLE, directory, is_absent};
use calls_base::lists::{Steps, hand_out_list};
use calls_base::ranges::{Range, range_of, some_range};
use calls_base::results::{DONE, NOTHING, hand_out_some, number_of};
use calls_base::view::View;
use calls_directories::resources::leaves::{
    Blocks, LeafWalk, Leaves, ResourceLeaf, ResourceLeaves, leaf_position, walk_at,
};
use calls_directories::resources::version::{content_of, fixed_in, name_at, text_in};
use calls_directories::resources::version_blocks::VersionBlock;
use pe_resource::{RT_MANIFEST, RT_VERSION, ResourceData, VersionName, VsFixedFileInfo};

// ---- leaves

/// Returns a walk over the leaves of the resource tree: `NOTHING` where the directory is absent, and in permissive mode where
/// its data are shorter than a directory.
///
/// Errors: `UNMAPPED`, `SHORT` of the first directory; `RESOURCE_BOUNDS` where the data are not in the file, and in strict mode
/// where the first directory or its entries are not all in the data.
#[unsafe(no_mangle)]
pub extern "C" fn pe_c_resource_leaves(view: &View, out: &mut ResourceLeaves) -> u32
    ensures tree { StartsLeaves view.now.bytes.now view.now.image.now
        (directory_sections view.now 2) result out.old out.new
        (image_tree view.now.bytes.now view.now.image.now (directory_sections view.now 2)) }
    ensures walk { HandsOutIf result out.old out.new
        (leaves_start view.now.bytes.now view.now.image.now (directory_sections view.now 2)) }
{
    let directory = directory(view.image, RESOURCE_TABLE);
    if is_absent(directory) {
        return NOTHING;
    }
    match leaf_position(view, directory) {
        Ok(Some((data, position))) => {
            *out = walk_at(range_of(data), &position);
            DONE
        }
        Ok(None) => NOTHING,
        Err(error) => number_of(&error),
    }
}

// ---- version

/// Returns the range of the manifest: `NOTHING` without one. What the version information says makes no difference.
/// Errors are those of `ResourceData::content_range`.
#[unsafe(no_mangle)]
pub extern "C" fn pe_c_manifest(view: &View, out: &mut Range) -> u32
    ensures { HandsOutManifest
        view.now.bytes.now view.now.image.now (may_map view.now) view.now.image.now.mode result
        out.old out.new }
{
    match content_of(view, RT_MANIFEST) {
        Ok(content) => hand_out_some(Ok(some_range(content)), out),
        Err(error) => number_of(&error),
    }
}

/// Reads the fixed file information of one version information, the content of a leaf of type 16 (`RT_VERSION`): `NOTHING`
/// where it has none.
///
/// Errors: `SHORT` where `content` is not inside the bytes; those of `VsFixedFileInfo::of_strings`.
#[unsafe(no_mangle)]
pub extern "C" fn pe_c_fixed_version_in(
    bytes: &[u8],
    content: &Range,
    out: &mut VsFixedFileInfo,
) -> u32
    ensures { HandsOutIf result out.old out.new (fixed_in bytes.now content.now) }
{
    hand_out_some(fixed_in(bytes, content), out)
}

/// Returns the range of the value of a name in one version information, by its number from 0 (`Comments`) to 11 (`SpecialBuild`): UTF-16
/// code units with the zeros after the text. `NOTHING` where it has no string of that name, and for a number above 11.
///
/// Errors: `SHORT` where `content` is not inside the bytes; those of `VersionName::value_range`.
#[unsafe(no_mangle)]
pub extern "C" fn pe_c_version_text_in(
    bytes: &[u8],
    content: &Range,
    name: u32,
    out: &mut Range,
) -> u32
    ensures { HandsOutIf result out.old out.new (text_in bytes.now content.now (name_at name)) }
{
    hand_out_some(text_in(bytes, content, name_at(name)), out)
}

// ---- version blocks

/// Returns the version information as a walk over its blocks, of which the first is all of it: `NOTHING` without one. Errors
/// are those of `ResourceData::content_range`.
#[unsafe(no_mangle)]
pub extern "C" fn pe_c_version_blocks(view: &View, out: &mut Range) -> u32
    ensures { HandsOutBlocks
        view.now.bytes.now view.now.image.now (may_map view.now) view.now.image.now.mode result
        out.old out.new }
{
    match content_of(view, RT_VERSION) {
        Ok(content) => hand_out_some(Ok(some_range(content)), out),
        Err(error) => number_of(&error),
    }
}

/// Lists the leaves of a resource tree, as `pe_c_next_resource_leaf` returns them, and moves the walk past them.
///
/// Errors: `ROOM` where `entries` is empty; those of `pe_c_next_resource_leaf`.
#[unsafe(no_mangle)]
pub extern "C" fn pe_c_list_resource_leaves(
    view: &View,
    walk: &mut LeafWalk,
    entries: &mut [ResourceLeaf],
    written: &mut u64,
) -> u32
    ensures { HandsOutList (Numbered tree_number (StepsKeptLeaves view.now))
        result walk.old walk.new entries.old entries.new written.old written.new }
{
    hand_out_list(&Leaves { view }, walk, entries, written)
}

/// Lists the blocks of a walk, as `pe_c_next_version_block` returns them, and moves the walk past them.
///
/// Errors: `ROOM` where `entries` is empty; those of `pe_c_next_version_block`, after which the walk goes on as after that call.
#[unsafe(no_mangle)]
pub extern "C" fn pe_c_list_version_blocks(
    bytes: &[u8],
    walk: &mut Range,
    entries: &mut [VersionBlock],
    written: &mut u64,
) -> u32
    ensures { HandsOutList (Numbered result_number (StepsVersionBlocks bytes.now))
        result walk.old walk.new entries.old entries.new written.old written.new }
{
    hand_out_list(&Blocks { bytes }, walk, entries, written)
}
