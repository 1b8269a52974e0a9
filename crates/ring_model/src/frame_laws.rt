//! Laws about frames, stated as contracts of functions that do nothing.
ghost use Rattle.std.specs.Prelude.{◌≡◌, ℕ, ◌<◌, List, [], ◌∷◌, map, length, Some, slice_get};
ghost use Rattle.ring_model.specs.shared.Lists.{IsBeginning};
ghost use Rattle.ring_model.specs.shared.Frames.{Bytes, cut, itself, join, chains, frames, AllFollow, HasFrameLength, IsChain, IsCutBy};
ghost use Rattle.ring_model.specs.shared.Segments.{Segment, piece_of};
ghost use Rattle.ring_model.specs.transmit.Ring.{Posting, carried};
ghost use Rattle.ring_model.specs.transmit.Frames.{AllMayFollow};

/// A frame cut into pieces of `b` bytes has full pieces except for the last, which alone ends it. Joining the pieces
/// restores the frame, also when they are stored as segments or posted. More segments leave the frames before them
/// unchanged.
pub fn frames_are_rejoined()
    ensures cut { (b : ℕ) (f : Bytes) → 0 < b → 0 < length f → IsCutBy b (cut b f) }
    ensures pieces { (b : ℕ) (f : Bytes) → 0 < b → join itself (cut b f) ≡ f }
    ensures segments { (b : ℕ) (f : Bytes) (ss : List (Segment Bytes)) → 0 < b → 0 < length f → map piece_of ss ≡ cut b f → frames piece_of ss ≡ f ∷ [] }
    ensures postings { (b : ℕ) (f : Bytes) (ps : List (Posting Bytes)) → 0 < b → 0 < length f → map carried ps ≡ cut b f → frames carried ps ≡ f ∷ [] }
    ensures beginnings { (xs : List (Segment Bytes)) (ys : List (Segment Bytes)) → IsBeginning xs ys → IsBeginning (frames piece_of xs) (frames piece_of ys) }
    ensures posted_beginnings { (xs : List (Posting Bytes)) (ys : List (Posting Bytes)) → IsBeginning xs ys → IsBeginning (frames carried xs) (frames carried ys) }
{}

/// If each segment may follow the unfinished frame before it, every frame has a lawful length. It is a chain of 1 to 15
/// segments of 1 to 2,048 bytes each, and of at most `n - 1` segments in a ring of `n`. The same holds for postings,
/// and the PAYLEN of each descriptor is the length of its whole frame.
pub fn chains_are_lawful()
    ensures stored { (n : ℕ) (ss : List (Segment Bytes)) → AllFollow piece_of n ss → (k : ℕ) (f : Bytes) → slice_get (frames piece_of ss) k ≡ Some f → HasFrameLength f }
    ensures posted { (n : ℕ) (ps : List (Posting Bytes)) → AllMayFollow n ps → (k : ℕ) (f : Bytes) → slice_get (frames carried ps) k ≡ Some f → HasFrameLength f }
    ensures stored_chains { (n : ℕ) (ss : List (Segment Bytes)) → AllFollow piece_of n ss → (k : ℕ) (chain : List (Segment Bytes)) → slice_get (chains piece_of ss) k ≡ Some chain → IsChain piece_of n chain }
    ensures posted_chains { (n : ℕ) (ps : List (Posting Bytes)) → AllMayFollow n ps → (k : ℕ) (chain : List (Posting Bytes)) → slice_get (chains carried ps) k ≡ Some chain → IsChain carried n chain }
    ensures paylen { (n : ℕ) (ps : List (Posting Bytes)) → AllMayFollow n ps → (k : ℕ) (chain : List (Posting Bytes)) → slice_get (chains carried ps) k ≡ Some chain
        → (i : ℕ) (p : Posting Bytes) → slice_get chain i ≡ Some p → p.paylen ≡ length (join carried chain) }
{}
