/// The names of a command's files.
#[derive(Clone, Copy)]
pub struct Files<'a> {
    /// The map that is read.
    pub map_name: &'a str,
    /// The file that is written.
    pub out_name: &'a str,
    /// The listing that is written beside it, where one is asked for.
    pub listing_name: Option<&'a str>,
}
