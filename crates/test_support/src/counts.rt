// The sum of a figure over what was tried, which no trial makes too large to count.
pub fn total<T, F: Fn(&T) -> usize>(tried: &[T], figure: F) -> usize
    requires { F.IsAlwaysCallable figure }
{
    tried
        .iter()
        .fold(0, |sum: usize, one| sum.saturating_add(figure(one)))
}
