use crate::status::Status;
use kp_base::{Row, Text};

/// A content that is put under a name.
#[derive(Drop)]
pub struct FilePut {
    /// The name of the file.
    pub name: Text,
    /// All its bytes.
    pub content: Row<u8>,
}

/// What a command comes to.
#[derive(Drop)]
pub struct Outcome {
    /// How the command ends.
    pub status: Status,
    /// The files that are put, in order.
    pub puts: Row<FilePut>,
    /// What is printed once they are put.
    pub text: Row<u8>,
}
