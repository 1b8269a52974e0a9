//! Laws about the places of a ring, stated as contracts of functions that do nothing.
ghost use Rattle.std.specs.Prelude.{◌≡◌, ◌≢◌, ℕ, ◌+◌, ◌-◌, ◌%◌, ◌<◌, ◌≤◌, ◌==◌, List, length, Some, slice_get, slice_index, slice_set, if◌then◌else◌};
ghost use Rattle.ring_model.specs.shared.Lists.{EachItem};
ghost use Rattle.ring_model.specs.kept.Writes.{Writes};

/// Item `k` of a ring of `n` has the place `k % n`. Two items less than `n` apart have different places, and their
/// places determine how far apart they are.
pub fn items_lie_apart()
    ensures same_item { (a : ℕ) (b : ℕ) (n : ℕ) → a ≤ b → b < a + n → a % n ≡ b % n → a ≡ b }
    ensures apart { (first : ℕ) (past : ℕ) (n : ℕ) (i : ℕ) (k : ℕ) → first ≤ i → i < past → first ≤ k → k < past → past ≤ first + n → i ≢ k → (i % n) ≢ (k % n) }
    ensures next_place { (n : ℕ) (p : ℕ) → 1 < n → (if (p % n + 1) == n then 0 else (p % n + 1)) ≡ (p + 1) % n }
    ensures lap { (n : ℕ) (p : ℕ) → (p + n) % n ≡ p % n }
    ensures ahead { (n : ℕ) (s : ℕ) (k : ℕ) → 0 < n → s ≤ k → k < s + n → (k % n + n - s % n) % n ≡ k - s }
    ensures index_writes { (xs : List ℕ) (n : ℕ) (p : ℕ) (x : ℕ) → p < length xs → Writes n (slice_index xs) (slice_index (slice_set xs p x)) p x }
{}

/// The effect of one write on the items by place: a write at an item's place, at the place after the last item, or at
/// the place of the first, which is then no longer out.
pub fn items_are_written<X>()
    ensures each_item_set { (n : ℕ) (first : ℕ) (past : ℕ) (i : ℕ) (before : ℕ → X) (later : ℕ → X) (wanted : ℕ → X) (wanting : ℕ → X) → 0 < n → past ≤ first + n → first ≤ i → i < past → Writes n before later (i % n) (wanting i) → ((k : ℕ) → first ≤ k → k < past → k ≢ i → wanting k ≡ wanted k) → EachItem n first past before wanted → EachItem n first past later wanting }
    ensures each_item_push { (n : ℕ) (first : ℕ) (past : ℕ) (before : ℕ → X) (later : ℕ → X) (wanted : ℕ → X) (wanting : ℕ → X) → 0 < n → past < first + n → Writes n before later (past % n) (wanting past) → ((k : ℕ) → first ≤ k → k < past → wanting k ≡ wanted k) → first ≤ past → EachItem n first past before wanted → EachItem n first (past + 1) later wanting }
    ensures each_item_drop { (n : ℕ) (first : ℕ) (past : ℕ) (before : ℕ → X) (later : ℕ → X) (wanted : ℕ → X) → 0 < n → past ≤ first + n → first < past → ((j : ℕ) → j < n → j ≢ first % n → later j ≡ before j) → EachItem n first past before wanted → EachItem n (first + 1) past later wanted }
    ensures each_item_same { (n : ℕ) (first : ℕ) (past : ℕ) (found : ℕ → X) (wanted : ℕ → X) (wanting : ℕ → X) → ((k : ℕ) → first ≤ k → k < past → wanting k ≡ wanted k) → EachItem n first past found wanted → EachItem n first past found wanting }
    ensures set_writes { (xs : List X) (p : ℕ) (x : X) → p < length xs → Writes (length xs) (slice_get xs) (slice_get (slice_set xs p x)) p (Some x) }
    ensures set_other { (xs : List X) (p : ℕ) (j : ℕ) (x : X) → j ≢ p → slice_get (slice_set xs p x) j ≡ slice_get xs j }
{}
