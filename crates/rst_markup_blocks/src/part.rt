//! Parts of views, by their places.

/// Neighbouring lines of a view and what they lose on the left, as `View::part` takes it: the lines at places `from`
/// to `to - 1`, the first without `first_cut` characters, the others without `rest_cut` spaces.
#[derive(Clone, Copy, Debug, PartialEq, Eq)]
pub struct Part {
    pub from: usize,
    pub to: usize,
    pub first_cut: usize,
    pub rest_cut: usize,
}
