// Whether a whole buffer holds what is expected of it.

// Each element beside what is expected at its place, which may be of a wider type.
pub(crate) fn holds<T: Copy, E: From<T> + PartialEq + Copy, F: Fn(usize) -> E>(
    elements: &[T],
    expected: F,
) -> bool
    requires { F.IsAlwaysCallable expected }
{
    elements
        .iter()
        .enumerate()
        .all(|(i, x)| E::from(*x) == expected(i))
}
