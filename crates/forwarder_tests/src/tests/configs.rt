//! Configurations that several tests begin with.

use forwarder::Config;

/// Four flows over rings of 8.
pub(crate) const SHORT: Config = Config {
    pairs: 2,
    ring: 8,
    ..Config::DEFAULT
};
