// What a plan is made for: the table with the starts and the calls.
ghost use Rattle.std.specs.Prelude.{◌≡◌};
ghost use Rattle.workfunction.specs.Plan.{stops as Plan·stops};

// An instance: the road table, the starts of the cranes and the calls that are served, in order.
#[derive(Clone, Copy)]
pub(crate) struct Instance<'a> {
    pub table: &'a [u32],
    pub starts: &'a [u16],
    pub calls: &'a [u16],
}

impl Instance<'_> {
    // How many stops its plans have: the starts and the calls.
    pub(crate) fn stops(self) -> usize
        ensures { result ≡ Plan·stops self.entry.starts.now self.entry.calls.now }
    {
        self.starts.len() + self.calls.len()
    }
}
