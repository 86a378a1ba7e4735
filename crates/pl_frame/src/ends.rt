//! Places at which things end that lie one behind the other.
ghost use Rattle.std.specs.Prelude.{◌≡◌, ◌<◌, ◌≤◌, ◌∷◌, length, slice_index};

// Where a thing begins, or would begin behind the last: where the one before it ends.
#[inline]
pub(crate) fn begin_of(ends: &[usize], i: usize) -> usize
    requires { i ≤ length ends.now }
    ensures { result ≡ slice_index (0 ∷ ends.now) i }
{
    if i == 0 { 0 } else { ends[i - 1] }
}

// Where the last ends.
#[inline]
pub(crate) fn last_end(ends: &[usize]) -> usize
    ensures { result ≡ slice_index (0 ∷ ends.now) (length ends.now) }
{
    if ends.is_empty() {
        0
    } else {
        ends[ends.len() - 1]
    }
}

// The thing in which a place is.
pub(crate) fn thing_at(ends: &[usize], place: usize) -> usize
    requires { place < slice_index (0 ∷ ends.now) (length ends.now) }
    ensures within { result < length ends.now }
    ensures begin { slice_index (0 ∷ ends.now) result ≤ place }
    ensures end { place < slice_index ends.now result }
{
    let mut low = 0;
    let mut high = ends.len();
    'search: while low < high {
        let middle = low + (high - low) / 2;
        if ends[middle] <= place {
            low = middle + 1;
        } else {
            high = middle;
        }
    }
    low
}
