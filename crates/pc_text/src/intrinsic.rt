//! The unsafe intrinsics that a plan uses, a line each.

ghost use Rattle.std.specs.Prelude.{◌≡◌, ◌++◌, ◌<◌, map, codes, length, OnOk};
ghost use Rattle.pc_spec_plan.specs.Text.{intrinsic_line, intrinsic_name, line_end, numbered};
ghost use Rattle.pc_types.specs.Intrinsic.{intrinsic_names};
ghost use Rattle.pc_info.specs.View.{intrinsic_view};

use pc_entity::{ModuleInternedTypeIndex, NoMemory, PackedOption};
use pc_text_pieces::put;
use pc_types::UnsafeIntrinsic;

/// How many unsafe intrinsics there are.
const INTRINSICS: usize = 21;

/// The name of the intrinsic at a place.
fn name_at(place: usize) -> &'static str
    requires held { place < length intrinsic_names }
    ensures { result.now ≡ intrinsic_name place }
{
    UnsafeIntrinsic::from_u32(place as u32).name()
}

/// The line of the intrinsic at a place.
fn put_name(out: &mut Vec<u8>, place: usize) -> Result<(), NoMemory>
    requires held { place < length intrinsic_names }
    ensures { OnOk result (out.new.items ≡ out.old.items ++ codes "intrinsic " ++ intrinsic_name place ++ line_end) }
{
    put(out, "intrinsic ")?;
    put(out, name_at(place))?;
    put(out, "\n")
}

/// The line of the intrinsic at a place, if the plan has a signature for it.
fn put_intrinsic(
    out: &mut Vec<u8>,
    place: usize,
    signature: PackedOption<ModuleInternedTypeIndex>,
) -> Result<(), NoMemory>
    requires held { place < length intrinsic_names }
    ensures { OnOk result (out.new.items ≡ out.old.items ++ intrinsic_line place (intrinsic_view signature)) }
{
    match signature {
        PackedOption::None => Ok(()),
        PackedOption::Some(_) => put_name(out, place),
    }
}

/// A line for each unsafe intrinsic that has a signature, in their order.
pub(crate) fn put_intrinsics(
    out: &mut Vec<u8>,
    signatures: &[PackedOption<ModuleInternedTypeIndex>; INTRINSICS],
) -> Result<(), NoMemory>
    ensures { OnOk result (out.new.items
        ≡ out.old.items ++ numbered intrinsic_line 0 (map intrinsic_view signatures.now)) }
{
    for (place, signature) in signatures.iter().enumerate() {
        put_intrinsic(out, place, *signature)?;
    }
    Ok(())
}
