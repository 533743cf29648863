//! An entry of a list that may be too short.

ghost use Rattle.std.specs.Prelude.{slice_index_or, ◌≡◌};

/// Entry `g` of a list, or `none` past its end.
pub(crate) fn entry<T: Copy>(list: &[T], g: usize, none: T) -> T
    ensures { result ≡ slice_index_or list.now g none }
{
    if g < list.len() { list[g] } else { none }
}
