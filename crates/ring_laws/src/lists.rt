//! Laws about prefixes of lists, stated as contracts of functions that do nothing.
ghost use Rattle.std.specs.Prelude.{◌≡◌, ℕ, ◌<◌, ◌≤◌, ◌⊎◌, List, [], ◌∷◌, ◌++◌, map, length, Some, slice_get, slice_index};
ghost use Rattle.ring_model.specs.shared.Lists.{IsBeginning};
ghost use Rattle.ring_model.specs.shared.Segments.{Segment, number_of_segment};

/// An item of a prefix has the same index in the whole list, and an appended item is the last.
pub fn beginnings_agree<X>()
    ensures front { (xs : List X) (ys : List X) (k : ℕ) → k < length xs → slice_get (xs ++ ys) k ≡ slice_get xs k }
    ensures beginning_at { (xs : List X) (ys : List X) (k : ℕ) (x : X) → IsBeginning xs ys → slice_get xs k ≡ Some x → slice_get ys k ≡ Some x }
    ensures snoc { (xs : List X) (y : X) (x : X) (k : ℕ) → slice_get (xs ++ y ∷ []) k ≡ Some x → ((k < length xs) × (slice_get xs k ≡ Some x)) ⊎ ((k ≡ length xs) × (y ≡ x)) }
    ensures beginning_trans { (xs : List X) (ys : List X) (zs : List X) → IsBeginning xs ys → IsBeginning ys zs → IsBeginning xs zs }
    ensures beginning_whole { (xs : List X) (ys : List X) → IsBeginning xs ys → length ys ≤ length xs → xs ≡ ys }
    ensures next_number { (xs : List X) (ys : List ℕ) → length xs < length ys → slice_get ys (length xs) ≡ Some (slice_index ys (length xs)) }
    ensures number_at { (ss : List (Segment X)) (posted : List ℕ) (k : ℕ) (s : Segment X) → IsBeginning (map number_of_segment ss) posted → slice_get ss k ≡ Some s → slice_get posted k ≡ Some s.number }
{}
