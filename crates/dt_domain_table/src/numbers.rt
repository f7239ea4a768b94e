//! The numbers of a line.

/// The number at a place, where it is small.
pub fn small(given: &[u128], at: usize) -> Option<u32> {
    let number = *given.get(at)?;
    if number <= 0xffff {
        Some(number as u32)
    } else {
        None
    }
}
