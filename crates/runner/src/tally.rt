// What the last line of a listing sums up.

mod events;

#[derive(Clone, Copy, Default)]
pub(crate) struct Tally {
    // flits injected, and flits ejected
    pub entered: u32,
    pub off: u32,
    // the cycles for which those ejected were under way, added up
    pub waited: u32,
}
