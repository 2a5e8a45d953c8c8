/// The positional words of a line, and a value or none for each option.
#[derive(Drop)]
pub struct Given<'a> {
    /// The positional words, in order.
    pub places: Vec<&'a str>,
    /// The values of the options, in the order of the command's options.
    pub values: Vec<Option<&'a str>>,
}
