/// How many looks a search for pairs has: so many at first, and so many more for each run of edges that it comes to. A look
/// compares two boxes; a test of two edges takes several. What would take long is so given up soon.
#[derive(Clone, Copy, Debug)]
pub struct Budget {
    pub at_first: usize,
    pub for_each_run: usize,
}
