//! The printed words of the states of driver and controller.
ghost use Rattle.std.specs.Prelude.{◌≡◌};
ghost use Rattle.ring_machine.specs.text.States.{controller_word, driver_word};

use ring_model::{ControllerState, DriverState};

/// The words of a driver's states, in the order of [`DriverState`].
const DRIVER_WORDS: [&str; 7] = [
    "New", "Asked", "On", "Stopping", "Stopped", "Cleared", "Tailed",
];

/// Returns the word of a driver's state.
pub fn driver_word(driver: DriverState) -> &'static str
    ensures { result.now ≡ driver_word driver }
{
    DRIVER_WORDS[driver as usize]
}

/// The words of a controller's states, in the order of [`ControllerState`].
const CONTROLLER_WORDS: [&str; 3] = ["off", "serving", "ended"];

/// Returns the word of a controller's state.
pub fn controller_word(controller: ControllerState) -> &'static str
    ensures { result.now ≡ controller_word controller }
{
    CONTROLLER_WORDS[controller as usize]
}
