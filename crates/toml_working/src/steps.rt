//! The steps of addresses.
ghost use Rattle.std.specs.Prelude.{◌≡◌, ◌≤◌, ◌∷◌, [], drop, is_some, option_map, set};
ghost use Rattle.toml_names.specs.model.Addresses.{same_address};
ghost use Rattle.toml_working.specs.Headers.{element_of};
ghost use Rattle.toml_working.specs.RenameStanding.{names_in};
ghost use Rattle.toml_layout.specs.Beginnings.{begins};

use toml_layout::behind;
use toml_names::{Address, Step};

/// The steps of the address behind the first so many.
pub(crate) fn below(at: &Address, used: usize) -> &[Step]
    ensures { result.now ≡ drop used at.now }
{
    behind(at.steps(), used)
}

/// The address with another step at a place. It takes no memory.
pub(crate) fn changed(at: Address, place: usize, step: Step) -> Address
    ensures { result ≡ set at place step }
{
    let mut steps = at.into_steps();
    if let Some(old) = steps.get_mut(place) {
        *old = step;
    }
    Address::of(steps)
}

/// Whether the first address is a beginning of the second.
pub(crate) fn is_at_or_above(at: &Address, other: &Address) -> bool
    ensures { result ≡ begins at.now other.now }
{
    begins(at.steps(), other.steps())
}

/// Whether the steps begin with the first ones. The last of these are compared first: elements of one array differ there.
pub(crate) fn begins(above: &[Step], steps: &[Step]) -> bool
    ensures { result ≡ begins above.now steps.now }
{
    if steps.len() < above.len() {
        return false;
    }
    for place in (0..above.len()).rev() {
        if !above[place].is_same(&steps[place]) {
            return false;
        }
    }
    true
}

/// Whether the steps are the same.
pub(crate) fn is_same_way(one: &[Step], other: &[Step]) -> bool
    ensures { result ≡ same_address one.now other.now }
{
    one.len() == other.len() && begins(one, other)
}

/// Whether the address is that of an element.
pub(crate) fn is_element(at: &Address) -> bool
    ensures { result ≡ is_some (element_of at.now) }
{
    element_of(at.steps()).is_some()
}

/// The array and the index of an element, if the steps lead to one.
pub(crate) fn element_of(steps: &[Step]) -> Option<(&[Step], u64)>
    ensures { option_map (λ r. (r.0.now, r.1)) result ≡ element_of steps.now }
{
    let (last, array) = steps.split_last()?;
    match last {
        Step::Index(index) => Some((array, *index)),
        Step::Name(_) => None,
    }
}

/// How many of the steps are names.
pub(crate) fn names_in(steps: &[Step]) -> usize
    ensures { result ≡ names_in steps.now }
{
    let mut count = 0;
    for step in steps {
        count += names_of(step);
    }
    count
}

/// One for a name, and none for an index.
fn names_of(step: &Step) -> usize
    ensures counts { result ≡ names_in (step.now ∷ []) }
    ensures most { result ≤ 1 }
{
    match step {
        Step::Name(_) => 1,
        Step::Index(_) => 0,
    }
}
