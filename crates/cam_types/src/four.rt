//! Up to four values, in places.
/// Up to four values, filled from `a` on.
#[derive(Clone, Copy, Debug, PartialEq, Eq)]
pub struct Four<T> {
    pub a: Option<T>,
    pub b: Option<T>,
    pub c: Option<T>,
    pub d: Option<T>,
}
