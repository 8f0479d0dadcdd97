//! Where what an edit names stood before the edits in front of it.

use std::alloc::{AllocError, Global};
use toml_edits::{Edit, place};
use toml_names::{Name, Step};

/// What of an address stood already in the text before the edits, by its steps there. The address is one behind all of these edits.
/// Where one of them made a part of it, the steps end above that part.
pub(crate) fn origin(
    alloc: Global,
    edits: &[Edit],
    steps: &[Step],
) -> Result<Vec<Step>, AllocError> {
    let mut front = Vec::with_capacity(alloc, steps.len())?;
    for step in steps {
        front.push(step.copy()?)?;
    }
    for edit in edits.iter().rev() {
        go_back(alloc, &mut front, edit)?;
    }
    Ok(front)
}

/// Goes from behind an edit to before it.
fn go_back(alloc: Global, front: &mut Vec<Step>, edit: &Edit) -> Result<(), AllocError> {
    let at = place(edit).steps();
    let Some((last, above)) = at.split_last() else {
        return Ok(());
    };
    if !begins_with(front, above) {
        return Ok(());
    }
    match edit {
        Edit::Set { .. } => {
            if begins_with(front, at) {
                front.truncate(at.len());
            }
            Ok(())
        }
        Edit::Insert { .. } | Edit::Section { .. } | Edit::Element { .. } => {
            take_out(front, above.len(), last);
            Ok(())
        }
        Edit::Remove { .. } => {
            put_in(front, above.len(), last);
            Ok(())
        }
        Edit::Rename { to, .. } => name_again(alloc, front, above.len(), last, to.as_str()),
    }
}

/// Whether the steps begin with these.
pub(crate) fn begins_with(steps: &[Step], front: &[Step]) -> bool {
    front.len() <= steps.len()
        && front
            .iter()
            .zip(steps)
            .all(|(one, other)| is_same(one, other))
}

/// Whether both steps are one.
fn is_same(one: &Step, other: &Step) -> bool {
    match (one, other) {
        (Step::Name(name), Step::Name(other)) => name.as_str() == other.as_str(),
        (Step::Index(index), Step::Index(other)) => index == other,
        _ => false,
    }
}

/// Before something new was put in at the step: it did not stand there yet, and elements behind it stood one further in front.
fn take_out(front: &mut Vec<Step>, depth: usize, new: &Step) {
    let is_new = match front.get(depth) {
        Some(step) => is_same(step, new),
        None => return,
    };
    if is_new {
        front.truncate(depth);
    } else if let (Some(Step::Index(index)), Step::Index(new)) = (front.get_mut(depth), new) {
        if *new < *index {
            *index = index.saturating_sub(1);
        }
    }
}

/// Before something was taken away at the step: elements behind it stood one further behind.
fn put_in(front: &mut Vec<Step>, depth: usize, old: &Step) {
    if let (Some(Step::Index(index)), Step::Index(old)) = (front.get_mut(depth), old) {
        if *old <= *index {
            *index = index.saturating_add(1);
        }
    }
}

/// Before a member got the name.
fn name_again(
    alloc: Global,
    front: &mut Vec<Step>,
    depth: usize,
    old: &Step,
    new: &str,
) -> Result<(), AllocError> {
    let is_renamed = match front.get(depth) {
        Some(Step::Name(name)) => name.as_str() == new,
        _ => false,
    };
    if is_renamed {
        let old = old.copy()?;
        if let Some(step) = front.get_mut(depth) {
            *step = old;
        }
    }
    Ok(())
}
