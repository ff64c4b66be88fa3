// A plan at work, which is changed call by call.
use crate::legs;

// A plan at work: the weights that vouch for it, the table of its legs' costs, and the followers of its stops. The widest numbers come first: with
// bytes between two fields the whole is cleared before each field is written, and most of it is the table.
#[derive(Drop)]
pub(crate) struct Matching<const N: usize> {
    pub weights: [i64; N],
    pub costs: [u32; legs::COSTS],
    pub plan: [u16; N],
}
