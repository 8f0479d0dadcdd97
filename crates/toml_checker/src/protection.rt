//! Which units no edit of a list takes away or changes.
ghost use Rattle.std.specs.Prelude.{◌≡◌, map, Some, IfOk, Option, ℕ, true};
ghost use Rattle.toml_edits.specs.Edits.{change};
ghost use Rattle.toml_checker.specs.EditLists.{changes};
ghost use Rattle.toml_checker.specs.Sights.{HasSight};
ghost use Rattle.toml_checker.specs.Plain.{stands, made_site, home_with, is_kept_by, TellProtectedOf};

use crate::edit_list::EditList;
use crate::sight::stands_by;
use crate::tables::{Part, is_named};
use std::alloc::{AllocError, Global};
use toml_edits::{Edit, Sight, carry, place, side_of};
use toml_names::Address;
use toml_units::{Unit, UnitKind};

/// Whether no edit names the part at the address, each where those before it have carried it. What stands nowhere is named
/// no more.
fn stands_along(
    alloc: Global,
    part: Part,
    edits: &[Edit],
    first: &Address,
    base: Option<usize>,
) -> Result<bool, AllocError>
    ensures { IfOk result (λ b. b ≡ stands part (map change edits.now) (Some first.now) base) }
{
    let mut here = first.copy(alloc)?;
    for edit in edits {
        let side = side_of(place(edit).steps(), here.steps());
        if is_named(part, edit, base, side) {
            return Ok(false);
        }
        match carry(alloc, edit, &here)? {
            Some(next) => here = next,
            None => return Ok(true),
        }
    }
    Ok(true)
}

/// Whether the part stands that has this address, of which the edits are seen as the sight tells.
fn stands_at(
    alloc: Global,
    part: Part,
    list: &EditList,
    sight: Sight,
    first: &Address,
    base: Option<usize>,
) -> Result<bool, AllocError>
    requires { HasSight list.now (Some first.now) sight }
    ensures { IfOk result (λ b. b ≡ stands part (changes list.now) (Some first.now) base) }
{
    match sight {
        Sight::Unknown => stands_along(alloc, part, list.edits, first, base),
        Sight::Nowhere => Ok(false),
        Sight::Somewhere(trace) => Ok(stands_by(part, base, trace)),
    }
}

/// Whether the part of a unit stands. The unit may have no address.
fn stands(
    alloc: Global,
    part: Part,
    list: &EditList,
    sight: Sight,
    unit: &Unit,
) -> Result<bool, AllocError>
    requires { HasSight list.now unit.now.address sight }
    ensures { IfOk result (λ b. b ≡ stands part (changes list.now) unit.now.address unit.now.base) }
{
    match &unit.address {
        Some(at) => stands_at(alloc, part, list, sight, at, unit.base),
        None => Ok(true),
    }
}

/// Whether a unit is protected. For a comment, `home` tells whether its line is still there.
pub(crate) fn is_kept(
    alloc: Global,
    list: &EditList,
    sight: Sight,
    home: bool,
    unit: &Unit,
) -> Result<bool, AllocError>
    requires { HasSight list.now unit.now.address sight }
    ensures { IfOk result (λ b. b ≡ is_kept_by unit.now.kind (changes list.now) home (made_site unit.now)) }
{
    match unit.kind {
        UnitKind::Line | UnitKind::Pair => stands(alloc, Part::Line, list, sight, unit),
        UnitKind::Element => stands(alloc, Part::Element, list, sight, unit),
        UnitKind::TailComment => Ok(home),
        UnitKind::InnerComment => {
            if !home {
                return Ok(false);
            }
            stands(alloc, Part::Comment, list, sight, unit)
        }
    }
}

/// Whether the last line is still there, behind one unit more, which is protected or not. A protected line is.
pub(crate) fn home_with(
    alloc: Global,
    list: &EditList,
    sight: Sight,
    home: bool,
    unit: &Unit,
    protected: bool,
) -> Result<bool, AllocError>
    requires seen { HasSight list.now unit.now.address sight }
    requires told { protected ≡ is_kept_by unit.now.kind (changes list.now) home (made_site unit.now) }
    ensures { IfOk result (λ b. b ≡ home_with (changes list.now) home (made_site unit.now)) }
{
    match unit.kind {
        UnitKind::Line => {
            if protected {
                return Ok(true);
            }
            stands(alloc, Part::Home, list, sight, unit)
        }
        UnitKind::TailComment | UnitKind::InnerComment | UnitKind::Element | UnitKind::Pair => {
            Ok(home)
        }
    }
}

/// Whether each unit of a document is protected under the edits: whether no edit takes it away or changes it, each where
/// those before it have carried the unit. By the address `p` of an edit, the unit's address `a`, and of a pair and of a
/// line with a key and a value the address `s` of the table in which it stands:
///
/// | Unit | taken away | changed |
/// |---|---|---|
/// | line with a key and a value, pair | remove with `p` at or above `a`; set with `p` strictly above `a` | set with `p` = `a`; any edit with `p` strictly below `a`; rename with `p` at or above `a` and longer than `s` |
/// | header line | remove or set with `p` at or above `a` | rename with `p` at or above `a` |
/// | element | remove or set with `p` at or above `a` | any edit with `p` strictly below `a` |
/// | comment at the end of a line | its line is taken away | never |
/// | comment in an array or an inline table | its line is taken away; remove or set with `p` at or above `a` | never |
/// | blank line | never | never |
///
/// A new section or element takes nothing away, and is among the edits of any kind.
pub fn protected(alloc: Global, units: &[Unit], edits: &[Edit]) -> Result<Vec<bool>, AllocError>
    ensures { IfOk result (λ flags. TellProtectedOf units.now (map change edits.now) flags.items) }
{
    let list = EditList::of(alloc, edits)?;
    let mut flags = Vec::with_capacity(alloc, units.len())?;
    let mut home = true;
    for unit in units {
        let sight = list.come_to(unit);
        let protected = is_kept(alloc, &list, sight, home, unit)?;
        home = home_with(alloc, &list, sight, home, unit, protected)?;
        flags.push(protected)?;
    }
    Ok(flags)
}
