/// What a step of a reading loop gives: one more, or the last.
#[derive(Drop)]
pub enum Step<A, B> {
    Next(A),
    Done(B),
}
