//! Merges what two views have seen.
ghost use Rattle.std.specs.Prelude.{◌≡◌, length};
ghost use Rattle.gen_board.specs.Rule.{later_of};

/// Raises each number to the one at the same place in the other list.
pub(crate) fn take_later(seen: &mut Vec<u32>, other: &[u32])
    requires { length other.now ≡ length seen.old.items }
    ensures { seen.new.items ≡ later_of seen.old.items other.now }
{
    for k in 0..seen.len() {
        if seen[k] < other[k] {
            seen[k] = other[k];
        }
    }
}
