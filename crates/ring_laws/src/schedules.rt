//! Laws about schedules, stated as contracts of functions that do nothing.
ghost use Rattle.std.specs.Prelude.{◌≡◌, Bool, true, List, ◌++◌};
ghost use Rattle.ring_model.specs.shared.Schedules.{after_all, next, IsReached};

/// The concatenation of schedules, and the states that they reach.
pub fn schedules_go_on<State, Step, Beginning>()
    ensures after_append { (can : State → Step → Bool) (changed : State → Step → State) (r : State) (ss : List Step) (more : List Step) → after_all can changed r (ss ++ more) ≡ after_all can changed (after_all can changed r ss) more }
    ensures next_happens { (can : State → Step → Bool) (changed : State → Step → State) (r : State) (s : Step) → can r s ≡ true → next can changed r s ≡ changed r s }
    ensures reached_opening { (can : State → Step → Bool) (changed : State → Step → State) (opening : Beginning → State) (b : Beginning) → IsReached can changed opening (opening b) }
    ensures reached_more { (can : State → Step → Bool) (changed : State → Step → State) (opening : Beginning → State) (r : State) (more : List Step) → IsReached can changed opening r → IsReached can changed opening (after_all can changed r more) }
    ensures reached_changed { (can : State → Step → Bool) (changed : State → Step → State) (opening : Beginning → State) (r : State) (s : Step) → can r s ≡ true → IsReached can changed opening r → IsReached can changed opening (changed r s) }
{}
