//! Parts of slices.
ghost use Rattle.std.specs.Prelude.{◌≡◌, drop};

/// All but the first so many.
pub(crate) fn behind<T>(items: &[T], count: u8) -> &[T]
    ensures { result.now ≡ drop count items.now }
{
    let (_, others) = items.split_at(items.len().min(usize::from(count)));
    others
}
