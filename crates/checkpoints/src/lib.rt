// One checkpoint on file: judging its records in turn, and writing its normal form (document 02, Job 14).
#![tactic(auto)]

pub mod judge;
pub mod normal;
pub mod scan;

// The settings that a file is judged by.
#[derive(Clone, Copy)]
pub struct FileSettings {
    pub u: usize,
    pub m: usize,
    pub d: usize,
    pub b: usize,
}

// What is kept of the records read so far. The different blocks stand in an array beside it, of which so many entries
// count: there is no heap for a Vec.
#[derive(Clone, Copy, Default)]
pub struct Counts {
    // the first record's epoch, once one came
    pub epoch: Option<u32>,
    // different blocks, BLOCK records and pages
    pub blocks: usize,
    pub records: usize,
    pub pages: usize,
    // the last page + 1, or 0
    pub next: usize,
    // whether STATE was seen
    pub seen: bool,
}

// One of the different blocks: its number, and where its last bytes begin in the file.
#[derive(Clone, Copy, Default)]
pub struct KeptBlock {
    pub number: usize,
    pub place: usize,
}

// A whole checkpoint: what was kept of its records before COMMIT, and where that ends in the file.
#[derive(Clone, Copy)]
pub struct Scanned {
    pub counts: Counts,
    pub end: usize,
}
