// Parts of lists that are lent to a call, and what the call left in lists that were filled with one number before.

// The first n of a list, or all of them.
pub fn front<T>(list: &[T], n: usize) -> &[T] {
    list.get(..n).unwrap_or(list)
}

// How many numbers are not as they were.
pub fn changed<T: Copy + PartialEq>(lent: &[T], before: T) -> usize {
    lent.iter().filter(|number| **number != before).count()
}

// Whether a list holds what is due, and is as it was past that.
pub fn holds<T: Copy + PartialEq>(lent: &[T], due: &[T], before: T) -> bool {
    lent.split_at_checked(due.len())
        .is_some_and(|(front, rest)| front == due && changed(rest, before) == 0)
}
