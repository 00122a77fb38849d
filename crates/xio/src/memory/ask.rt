use lists::Bytes;

/// A call of `open_file`: the asked name, and the place up to which its file was taken.
#[derive(Debug, Drop)]
pub struct Ask {
    pub name: Bytes,
    pub place: u64,
}
