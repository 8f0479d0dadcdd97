//! Laws over the definitions: the function's contract is these, and nothing is run.
ghost use Rattle.toml_one.specs.Laws.{DeepIsRefused, OneEditList, OneKeptList, SetsWhatStands};

/// A wish at a place stands for one list of edits, and what is handed out of it is one list. Where something stands at the place, a `set`
/// that makes what is missing above is one `set` of it. An edit that puts something at an address of more than 100 steps is refused,
/// whatever the data.
pub fn wishes()
    ensures one { OneEditList }
    ensures kept { OneKeptList }
    ensures stands { SetsWhatStands }
    ensures deep { DeepIsRefused }
{}
