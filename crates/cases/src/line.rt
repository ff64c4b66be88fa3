// What all cases share: the head of a line, and lists that are alike from an index on.
use std::io;

// A new line, for the cases of a number in the legend.
pub(crate) fn begin(rt: &impl Print, number: u64) -> io::Result<()> {
    print!(rt; "\n{number}:")
}

// Whether every entry from an index on is this one.
pub(crate) fn rest_is<T: Copy + PartialEq>(value: T, list: &[T], from: usize) -> bool {
    list.iter().skip(from).all(|&entry| entry == value)
}

// Sets an entry, where the list has it.
pub(crate) fn set<T: Copy>(list: &mut [T], at: usize, value: T) {
    if let Some(entry) = list.get_mut(at) {
        *entry = value;
    }
}

// Sets every entry from an index on.
pub(crate) fn set_rest<T: Copy>(list: &mut [T], from: usize, value: T) {
    for entry in list.iter_mut().skip(from) {
        *entry = value;
    }
}
