//! Lists that are read or written past their ends.

/// The items from one number up to another, without that; none where the list is too short.
pub(crate) fn part<T>(list: &[T], from: usize, to: usize) -> &[T] {
    list.get(from..to).unwrap_or(&[])
}

/// The items from that number on.
pub(crate) fn rest<T>(list: &[T], from: usize) -> &[T] {
    list.get(from..).unwrap_or(&[])
}

/// Sets the item with that number, if there is one.
pub(crate) fn set<T: Copy>(list: &mut [T], number: usize, item: T) {
    if let Some(at) = list.get_mut(number) {
        *at = item;
    }
}
