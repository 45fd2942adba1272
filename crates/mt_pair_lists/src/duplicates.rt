ghost use Rattle.std.specs.Prelude.{◌≡◌, not};
ghost use Rattle.std.specs.List.Sorted.{IsSorted};
ghost use Rattle.mt_terms.specs.Registration.Ids.{all_differ};

/// Whether an element stands twice in a list in ascending order, so next to itself.
fn has_equal_neighbours<T: Ord>(items: &[T]) -> bool
    requires { IsSorted T.cmp items.now }
    ensures { result ≡ not (all_differ T.eq items.now) }
{
    for i in 1..items.len() {
        if items[i - 1] == items[i] {
            return true;
        }
    }
    false
}

/// Whether an element stands twice in a list, which is put in order.
pub(crate) fn has_duplicate<T: Ord>(items: &mut [T]) -> bool
    ensures { result ≡ not (all_differ T.eq items.old) }
{
    items.sort_unstable();
    has_equal_neighbours(items)
}
