ghost use Rattle.std.specs.Str.{IsCharBoundary};
ghost use Rattle.toml_text.specs.Source.{text_of};

use toml_text::Source;

/// A text, and the place of the next byte.
#[derive(Clone, Copy)]
pub(crate) struct Reader<'t> {
    pub source: Source<'t>,
    pub at: usize,
    // a character begins there, or the text ends
    ghost bound: { IsCharBoundary (text_of source) at },
}
