/// Where the entries of a row stand: so many from a place on, with room for some more.
#[derive(Clone, Copy, Debug, PartialEq, Eq)]
pub(crate) struct Row {
    pub(crate) start: usize,
    pub(crate) len: usize,
    pub(crate) room: usize,
}
