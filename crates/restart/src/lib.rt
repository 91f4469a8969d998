// What stands at the end of a restart program; all else here is definitions and theorems.
#![tactic(auto)]

// The read count before the last TIC: none in 5; in 5A a 12, or a 92 over several tracks.
#[derive(Clone, Copy)]
pub enum ReadCount {
    Omitted,
    Single,
    Multitrack,
}
