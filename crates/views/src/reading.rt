// What is read at a place of a frame.

// A value, and where the next bytes start.
#[derive(Clone, Copy)]
pub struct Reading<T> {
    pub value: T,
    pub next: usize,
}
