//! What edits do to a unit, by what the tree of their list shows of it.
ghost use Rattle.std.specs.Prelude.{◌≡◌, ℕ};
ghost use Rattle.toml_checker.specs.Sights.{line_is_left, more_than, seen_by, stands_by};

use crate::tables::Part;
use toml_edits::Trace;

/// Whether a place of more steps than these is renamed.
fn is_past(renamed: Option<usize>, steps: usize) -> bool
    ensures { result ≡ more_than steps renamed }
{
    match renamed {
        Some(deepest) => steps < deepest,
        None => false,
    }
}

/// Whether a line or a pair stays as it is.
fn line_is_left(base: Option<usize>, trace: Trace) -> bool
    ensures { result ≡ line_is_left base (seen_by trace) }
{
    match base {
        None => !(trace.set || is_past(trace.renamed, 0)),
        Some(steps) => {
            let changed = trace.below || is_past(trace.renamed, steps);
            !(trace.set || changed)
        }
    }
}

/// Whether no edit names the part at the base, of a thing that stands somewhere in the end.
pub(crate) fn stands_by(part: Part, base: Option<usize>, trace: Trace) -> bool
    ensures { result ≡ stands_by part base (seen_by trace) }
{
    match part {
        Part::Line => line_is_left(base, trace),
        Part::Home => base.is_some() || !trace.set,
        Part::Element => !(trace.set || trace.below),
        Part::Comment => !trace.set,
    }
}
