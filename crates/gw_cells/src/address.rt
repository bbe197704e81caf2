/// The address of a row: what is asked of the host and of the path, as it is looked for.
#[derive(Drop)]
pub(crate) struct Address {
    pub(crate) name: Vec<u8>,
    pub(crate) is_exact: bool,
    pub(crate) path: Vec<u8>,
}
