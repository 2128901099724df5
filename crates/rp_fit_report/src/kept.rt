//! The lines of the most observations that are consistent.
ghost use Rattle.std.specs.Prelude.{◌≡◌, ◌++◌, OnOk, length};
ghost use Rattle.std.specs.List.{flat_map};
ghost use Rattle.rp_fit_report.specs.KeptText.{bounds_text, group_text, kept_text, kind_text};
ghost use Rattle.rp_fit_report.specs.KeptText.{most_text};

use rp_fit::{Group, GroupKind, KeptPart};
use rp_num::NoMemory;
use rp_print::{
    LongNumber, Number, Ordinal, push_after, push_list, push_number_line, push_numbers,
    push_ordinals,
};
use std::alloc::Global;

/// Appends the lines of the kept observations of `n`.
pub fn push_kept(alloc: Global, out: &mut Vec<u8>, n: u32, part: &KeptPart) -> Result<(), NoMemory>
    ensures { OnOk result (out.new.items ≡ out.old.items ++ kept_text n part.now) }
{
    push_bounds(alloc, out, part.kept.as_slice(), part.most, n)?;
    push_ordinals(alloc, out, b"observations ", part.kept.as_slice())?;
    push_numbers(alloc, out, b"ranks ", part.ranks.as_slice())?;
    push_number_line(alloc, out, b"groups over ", u64::from(part.den))?;
    push_groups(alloc, out, part.groups.as_slice())
}

/// Appends the line of how many observations are kept, and of how many could be.
fn push_bounds(
    alloc: Global,
    out: &mut Vec<u8>,
    kept: &[u32],
    most: u32,
    n: u32,
) -> Result<(), NoMemory>
    ensures { OnOk result (
        out.new.items ≡ out.old.items ++ bounds_text (length kept.now) most n) }
{
    let count = kept.len() as u64;
    push_after::<LongNumber>(alloc, out, b"kept ", count)?;
    push_most(alloc, out, count, most)?;
    push_number_line(alloc, out, b" of ", u64::from(n))
}

/// Appends how many observations could be kept, where that is another number.
fn push_most(alloc: Global, out: &mut Vec<u8>, count: u64, most: u32) -> Result<(), NoMemory>
    ensures { OnOk result (out.new.items ≡ out.old.items ++ most_text count most) }
{
    if u64::from(most) == count {
        return Ok(());
    }
    push_after::<Number>(alloc, out, b" to ", most)
}

/// Appends a line of each group with its weight.
fn push_groups(alloc: Global, out: &mut Vec<u8>, groups: &[Group]) -> Result<(), NoMemory>
    ensures { OnOk result (out.new.items ≡ out.old.items ++ flat_map group_text groups.now) }
{
    for group in groups {
        push_group(alloc, out, group)?;
    }
    Ok(())
}

/// Appends the line of a group with its weight.
fn push_group(alloc: Global, out: &mut Vec<u8>, group: &Group) -> Result<(), NoMemory>
    ensures { OnOk result (out.new.items ≡ out.old.items ++ group_text group.now) }
{
    out.extend_from_slice(kind_name(group.kind))?;
    push_list::<Ordinal>(alloc, out, group.members.as_slice())?;
    push_number_line(alloc, out, b" weight ", u64::from(group.weight))
}

/// What kind of group it is.
fn kind_name(kind: GroupKind) -> &'static [u8]
    ensures { result.now ≡ kind_text kind }
{
    match kind {
        GroupKind::Pairs => b"pairs ",
        GroupKind::Cycle => b"cycle ",
    }
}
