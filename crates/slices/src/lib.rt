//! The copy of a slice, total.
#![tactic(auto)]

ghost use Rattle.std.specs.Prelude.{◌≡◌};
ghost use Rattle.slices.specs.Copies.{copied_to};

/// Nothing changes where the two have other lengths.
pub fn copy<T: Copy>(from: &[T], to: &mut [T])
    ensures { to.new ≡ copied_to from.now to.old }
{
    if from.len() != to.len() {
        return;
    }
    // By index: of a zip over a slice that is written only the length is known, and the library's copy of slices that C lends needs `memmove`.
    for i in 0..to.len() {
        to[i] = from[i];
    }
}
