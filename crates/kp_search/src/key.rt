/// What an entry is taken by: its estimate, and then its number.
#[derive(Clone, Copy, PartialEq, Eq, PartialOrd, Ord)]
pub struct Key {
    /// What its state is estimated at.
    pub estimate: u32,
    /// Its place in the order in which entries came in.
    pub number: usize,
}
