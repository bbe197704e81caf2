/// What a reader knows of its opening, once it was told: which list of changes it is, and the part that all its values have. It stands
/// in contracts alone, and no value of it is made.
pub struct Known<F> {
    pub told: bool,
    pub number: u64,
    pub log_name: u64,
    pub cells_name: u64,
    pub fixed: F,
}
