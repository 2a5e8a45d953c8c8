use kp_base::Row;

/// An instance: a schema, and an object for each of its parameters.
#[derive(Debug, PartialEq, Eq, Drop)]
pub struct Kept {
    /// The schema.
    pub schema: u32,
    /// The objects, in order.
    pub objects: Row<u32>,
}
