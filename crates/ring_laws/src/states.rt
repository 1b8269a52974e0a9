//! Laws about the states of a queue's two sides, stated as contracts of functions that do nothing.
ghost use Rattle.std.specs.Prelude.{◌≡◌, ℕ, true, false};
ghost use Rattle.ring_model.specs.declared.states.DriverState.{DriverState};
ghost use Rattle.ring_model.specs.declared.states.ControllerState.{ControllerState};
ghost use Rattle.ring_model.specs.declared.states.ControllerState.TheVariants.{Serving, Ended};
ghost use Rattle.ring_model.specs.shared.Handshakes.{is_new, is_on, is_open, is_live, is_answered, is_stopped, is_cleared, is_tailed, is_serving, is_ended, learned};
ghost use Rattle.ring_model.specs.shared.Handshakes.{is_emptied};
ghost use Rattle.ring_model.specs.shared.Laws.{ControlFits};

/// What one test of a driver's or controller's state implies for another, and for the control word and the value seen.
pub fn states_tell()
    ensures new_open { (d : DriverState) → is_new d ≡ true → is_open d ≡ true }
    ensures on_open { (d : DriverState) → is_on d ≡ true → is_open d ≡ true }
    ensures open_unanswered { (d : DriverState) → is_open d ≡ true → is_answered d ≡ false }
    ensures live_unanswered { (d : DriverState) → is_live d ≡ true → is_answered d ≡ false }
    ensures stopped_full { (d : DriverState) → is_stopped d ≡ true → is_emptied d ≡ false }
    ensures stopped_answered { (d : DriverState) → is_stopped d ≡ true → is_answered d ≡ true }
    ensures cleared_emptied { (d : DriverState) → is_cleared d ≡ true → is_emptied d ≡ true }
    ensures tailed_emptied { (d : DriverState) → is_tailed d ≡ true → is_emptied d ≡ true }
    ensures emptied_answered { (d : DriverState) → is_emptied d ≡ true → is_answered d ≡ true }
    ensures answered_closed { (d : DriverState) → is_answered d ≡ true → is_open d ≡ false }
    ensures learned_open { (d : DriverState) (control : ℕ) → is_open (learned d control) ≡ is_open d }
    ensures learned_unanswered { (d : DriverState) (control : ℕ) → is_answered (learned d control) ≡ false → is_answered d ≡ false }
    ensures serving_unended { (c : ControllerState) → is_serving c ≡ true → is_ended c ≡ false }
    ensures on_serving { (d : DriverState) (c : ControllerState) (control : ℕ) (seen : ℕ) → is_on d ≡ true → ControlFits d c control seen → is_serving c ≡ true }
    ensures serving_unanswered { (d : DriverState) (c : ControllerState) (control : ℕ) (seen : ℕ) → is_serving c ≡ true → ControlFits d c control seen → is_answered d ≡ false }
    ensures control_steps_enable { (d : DriverState) (c : ControllerState) (control : ℕ) (seen : ℕ) → seen ≡ 1 → ControlFits d c control seen → ControlFits d Serving 2 2 × (is_open d ≡ true) }
    ensures control_steps_disable { (d : DriverState) (c : ControllerState) (control : ℕ) (seen : ℕ) → seen ≡ 3 → is_serving c ≡ true → ControlFits d c control seen → ControlFits d Ended 0 0 × (is_open d ≡ false) }
{}
