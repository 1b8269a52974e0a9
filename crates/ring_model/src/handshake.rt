//! The handshake over the control word (82599 datasheet, RXDCTL.ENABLE and TXDCTL.ENABLE), the same for both
//! directions.

ghost use Rattle.std.specs.Prelude.{◌≡◌, if◌then◌else◌};

use crate::states::{ControllerState, DriverState};
use crate::steps::ControlStep;

/// The control word, the control value that the controller last loaded or stored, and the state of each side.
///
/// Control is 0 disabled, 1 enabling asked, 2 enabled, 3 disabling asked.
#[derive(Clone, Copy)]
pub struct Handshake {
    /// The control word.
    pub control: u8,
    /// The control value that the controller last loaded or stored.
    pub seen: u8,
    /// How far the driver is.
    pub driver: DriverState,
    /// How far the controller is.
    pub controller: ControllerState,
}

impl Handshake {
    ghost use Rattle.ring_model.specs.shared.Handshakes.{can_enable, control_value, disable, enable, first_handshake, may_control_step, after_control_step};

    /// Returns the handshake of a new queue: enabled and seen enabled on both sides, or never enabled.
    pub fn first(enabled: bool) -> Handshake
        ensures { result ≡ first_handshake enabled }
    {
        if enabled {
            Handshake {
                control: 2,
                seen: 2,
                driver: DriverState::On,
                controller: ControllerState::Serving,
            }
        } else {
            Handshake {
                control: 0,
                seen: 0,
                driver: DriverState::New,
                controller: ControllerState::Off,
            }
        }
    }

    /// Whether the controller's answer (C3) enables the queue.
    pub fn can_enable(self) -> bool
        ensures { result ≡ can_enable self }
    {
        self.seen == 1 && !self.controller.is_serving()
    }

    /// Whether this step can happen. `settled` says whether a disabling may be answered now.
    pub fn may_control_step(self, step: ControlStep, settled: bool) -> bool
        ensures { result ≡ may_control_step self step settled }
    {
        match step {
            ControlStep::AskEnable => self.driver.is_new(),
            ControlStep::LookAsked | ControlStep::LookAnswered => true,
            ControlStep::Answer => {
                self.can_enable() || (self.seen == 3 && self.controller.is_serving() && settled)
            }
            ControlStep::AskDisable => self.driver.is_on(),
        }
    }

    /// Returns the control value that this step stores or loads.
    pub fn control_value(self, step: ControlStep) -> u8
        ensures { result ≡ control_value self step }
    {
        match step {
            ControlStep::AskEnable => 1,
            ControlStep::LookAsked | ControlStep::LookAnswered => self.control,
            ControlStep::Answer => { if self.can_enable() { 2 } else { 0 } }
            ControlStep::AskDisable => 3,
        }
    }

    /// Returns the handshake after this step, assuming that it can happen.
    pub fn after_control_step(self, step: ControlStep) -> Handshake
        ensures { result ≡ after_control_step self step }
    {
        match step {
            ControlStep::AskEnable => Handshake {
                control: 1,
                driver: DriverState::Asked,
                ..self
            },
            ControlStep::LookAsked => Handshake {
                seen: self.control,
                ..self
            },
            ControlStep::Answer => self.answered(),
            ControlStep::LookAnswered => Handshake {
                driver: self.driver.learned(self.control),
                ..self
            },
            ControlStep::AskDisable => Handshake {
                control: 3,
                driver: DriverState::Stopping,
                ..self
            },
        }
    }

    // Returns the handshake after the controller's answer.
    fn answered(self) -> Handshake
        ensures { result ≡ (if can_enable self then enable self else disable self) }
    {
        if self.can_enable() {
            Handshake {
                control: 2,
                seen: 2,
                controller: ControllerState::Serving,
                ..self
            }
        } else {
            Handshake {
                control: 0,
                seen: 0,
                controller: ControllerState::Ended,
                ..self
            }
        }
    }
}
