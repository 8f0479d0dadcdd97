/// How far a step of the scan goes.
#[derive(Clone, Copy)]
pub enum Advance {
    /// Over so many bytes, and the string goes on.
    More(usize),
    /// To the end of the string, so many bytes on.
    End(usize),
}
