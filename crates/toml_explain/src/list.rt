//! Edit lists and certificates that are none.
ghost use Rattle.std.specs.Prelude.{IfOk, string_bytes};
ghost use Rattle.toml_explain.specs.Openings.{OpensBare};

use crate::opening::bare_opened;
use std::alloc::{AllocError, Global};

/// What is wrong with a list, by its code.
fn list_sentence(alloc: Global, code: u16, index: usize) -> Result<String, AllocError> {
    let fixed = match code {
        320 => return format!(in alloc;
            "entry {index} is no edit: it is an object with op, at, and what the op asks for\n"
        ),
        321 => "this is no JSON list\n",
        330 => "this is no certificate: its first line is kept 1, and each other has two numbers\n",
        _ => "this is refused\n",
    };
    String::from_str(alloc, fixed)
}

/// Why bytes are no edit list (320 with the index of an entry, from 0, and 321) or no certificate (330), behind the word by which they
/// are named. No line is shown. It fails for want of memory alone.
pub fn explain_list(
    alloc: Global,
    word: &str,
    code: u16,
    index: usize,
) -> Result<String, AllocError>
    ensures { IfOk result (λ text. OpensBare word.now (string_bytes text)) }
{
    bare_opened(alloc, word, list_sentence(alloc, code, index)?.as_str())
}
