/// A text, and the word by which a command line names it.
#[derive(Clone, Copy)]
pub struct Input<'a> {
    pub word: &'a str,
    pub bytes: &'a [u8],
}
