//! What words see and change.
ghost use Rattle.std.specs.Prelude.{◌≡◌, ◌+◌};

use nl_agents::{Layout, Store};
use nl_draw::Stream;
use nl_fixed::Num;

/// A store with its layout, the clock, and the random stream.
#[derive(Drop)]
pub struct Stage<S: Store> {
    pub store: S,
    pub layout: Layout,
    /// None where the clock is off.
    pub ticks: Option<Num>,
    pub stream: Stream,
    /// The slot of the experiment's name, which comes after that of the run's number. That is the first one after the model's global
    /// variables.
    pub experiment: u32,
    pub ghost known: { layout ≡ (S.world store).rest.layout },
    pub ghost after: { experiment ≡ layout.globals + 1 },
}
