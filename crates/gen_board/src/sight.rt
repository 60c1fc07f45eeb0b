//! The proof's record of what a seat has seen.
/// What a seat at the table knows, by file number. No value of it is ever made.
pub(crate) struct Sight {
    /// The newest generation seen of each file, or 0.
    pub seen: [u32; 0],
    /// How often it has read or raised the word of each file.
    pub steps: [u64; 0],
    /// How often it has read the word of each file.
    pub looks: [u64; 0],
    /// What the last read of each file's word found.
    pub looked: [u32; 0],
}
