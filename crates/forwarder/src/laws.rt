//! A law about the plans of a configuration, as the contract of a function that does nothing.
ghost use Rattle.std.specs.Prelude.{◌≡◌, ℕ, List};
ghost use Rattle.settings.specs.declared.config.Config.{Config};
ghost use Rattle.flows.specs.Keys.{repeated};
ghost use Rattle.forwarder.specs.Flows.{frames_of};
ghost use Rattle.forwarder.specs.Plans.{plan};
ghost use Rattle.wire_script.specs.Frame.{Frame};

/// The frames of a flow's plan are those of the script that arrive at the flow's port and queue, in order, as often as
/// the configuration repeats them.
pub fn plans_have_the_flows_frames()
    ensures frames { (config : Config) (script : List Frame) (flow : ℕ) → (plan config script flow).frames ≡ repeated config.repeat (frames_of config.pairs flow script) }
{}
