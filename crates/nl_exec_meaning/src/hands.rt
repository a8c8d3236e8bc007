//! What a text changes besides its units.

use crate::Site;
use crate::locals::Locals;
use nl_agents::Store;
use nl_exec_acts::Stage;

/// The stage, the locals of the procedure that runs, and who runs.
#[derive(Drop)]
pub struct Hands<S: Store> {
    pub stage: Stage<S>,
    pub locals: Locals,
    pub site: Site,
}
