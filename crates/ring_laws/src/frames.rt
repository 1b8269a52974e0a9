//! Laws about growing lists of segments, stated as contracts of functions that do nothing.
ghost use Rattle.std.specs.Prelude.{◌≡◌, ℕ, ◌+◌, true, List, [], ◌∷◌, ◌++◌, map, length, take, Some, slice_get, if◌then◌else◌};
ghost use Rattle.ring_model.specs.shared.Lists.{IsBeginning};
ghost use Rattle.ring_model.specs.shared.Frames.{Bytes, Piece, join, unfinished_from, unfinished, chains_from, frames, ends_frame, cut, AllFollow, Follows};
ghost use Rattle.ring_model.specs.kept.CanCut.{CanCut};
ghost use Rattle.ring_model.specs.transmit.Ring.{Posting, carried};
ghost use Rattle.ring_model.specs.transmit.Frames.{MayFollow, AllMayFollow};

/// How an appended item or list changes the bytes, the unfinished rest and the frames.
pub fn frames_grow<X>()
    ensures join_append { (carries : X → Piece) (xs : List X) (ys : List X) → join carries (xs ++ ys) ≡ join carries xs ++ join carries ys }
    ensures length_join_snoc { (carries : X → Piece) (xs : List X) (x : X) → length (join carries (xs ++ x ∷ [])) ≡ length (join carries xs) + length (carries x).bytes }
    ensures unfinished_append { (carries : X → Piece) (xs : List X) (ys : List X) → unfinished carries (xs ++ ys) ≡ unfinished_from carries (unfinished carries xs) ys }
    ensures unfinished_snoc { (carries : X → Piece) (xs : List X) (x : X) → unfinished carries (xs ++ x ∷ []) ≡ (if (carries x).eop then [] else unfinished carries xs ++ x ∷ []) }
    ensures frames_append { (carries : X → Piece) (xs : List X) (ys : List X) → frames carries (xs ++ ys) ≡ frames carries xs ++ map (join carries) (chains_from carries (unfinished carries xs) ys) }
    ensures frames_snoc { (carries : X → Piece) (xs : List X) (x : X) → frames carries (xs ++ x ∷ []) ≡ frames carries xs ++ (if (carries x).eop then join carries (unfinished carries xs ++ x ∷ []) ∷ [] else []) }
    ensures frames_beginning { (carries : X → Piece) (xs : List X) (ys : List X) → IsBeginning xs ys → IsBeginning (frames carries xs) (frames carries ys) }
    ensures whole_unfinished { (carries : X → Piece) (xs : List X) → ends_frame (λ x. (carries x).eop) true xs ≡ true → unfinished carries xs ≡ [] }
    ensures unfinished_whole { (carries : X → Piece) (xs : List X) → unfinished carries xs ≡ [] → ends_frame (λ x. (carries x).eop) true xs ≡ true }
{}

/// "Each item may follow" holds for the empty list, after an append, for the next item of a prefix, and for the pieces
/// of a cut frame.
pub fn what_follows_goes_on<X>()
    ensures follow_nil { (carries : X → Piece) (n : ℕ) → AllFollow carries n [] }
    ensures follow_snoc { (carries : X → Piece) (n : ℕ) (xs : List X) (x : X) → AllFollow carries n xs → Follows carries n (unfinished carries xs) (carries x).bytes (carries x).eop → AllFollow carries n (xs ++ x ∷ []) }
    ensures follows_next { (carries : X → Piece) (n : ℕ) (xs : List X) (ys : List X) (x : X) → IsBeginning xs ys → slice_get ys (length xs) ≡ Some x → AllFollow carries n ys → Follows carries n (unfinished carries xs) (carries x).bytes (carries x).eop }
    ensures follows_cut { (carries : X → Piece) (n : ℕ) (b : ℕ) (f : Bytes) (rest : List X) (j : ℕ) (p : Piece) → CanCut n b (length f) → map carries rest ≡ take j (cut b f) → slice_get (cut b f) j ≡ Some p → Follows carries n rest p.bytes p.eop }
{}

/// The same for postings.
pub fn postings_go_on()
    ensures may_follow_nil { (n : ℕ) → AllMayFollow n [] }
    ensures may_follow_snoc { (n : ℕ) (ps : List (Posting Bytes)) (p : Posting Bytes) → AllMayFollow n ps → MayFollow n (unfinished carried ps) p → AllMayFollow n (ps ++ p ∷ []) }
    ensures may_follow_next { (n : ℕ) (ps : List (Posting Bytes)) (qs : List (Posting Bytes)) (p : Posting Bytes) → IsBeginning ps qs → slice_get qs (length ps) ≡ Some p → AllMayFollow n qs → MayFollow n (unfinished carried ps) p }
{}
