//! A walk over the items of a tree.

ghost use Rattle.std.specs.Prelude.{◌≡◌, ℕ, List, Option};
ghost use Rattle.std.specs.Fn.{FnReturnsAt};
ghost use Rattle.std.specs.List.{flat_map};
ghost use Rattle.fcl_check.specs.Places.{first};

/// The first offset that `place` finds at an item.
pub fn first_at<T, F: Fn(&T) -> Option<u32>>(items: &[T], place: F) -> Option<u32>
    requires { F.IsAlwaysCallable place }
    ensures { (places : T → List ℕ) → ((x : T) (at : Option ℕ) → FnReturnsAt F.Fn place x at → at ≡
        first (places x)) → result ≡ first (flat_map places items.now) }
{
    for item in items {
        if let Some(at) = place(item) {
            return Some(at);
        }
    }
    None
}
