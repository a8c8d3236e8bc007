//! What a run is.
ghost use Rattle.std.specs.Prelude.{◌≡◌, ◌+◌, slice_get, IfOk, IsTrue};
ghost use Rattle.nl_value.specs.Views.{plain};
ghost use Rattle.nl_agents.specs.Standing.{fits_rest};
ghost use Rattle.nl_exec_acts.specs.Stage.{Gives};
ghost use Rattle.nl_exec_acts.specs.Acts.{told_or_wrong, place_of_run};

use crate::fail::{ActFail, ErrorKind};
use crate::stage::Stage;
use crate::words::OfRun;
use nl_agents::{Owner, Store};
use nl_value::Value;
use std::alloc::Global;

impl OfRun {
    /// The slot where it is kept, after all global variables of the model.
    fn slot<S: Store>(self, stage: &Stage<S>) -> u32
        ensures { result ≡ stage.now.layout.globals + place_of_run self }
    {
        match self {
            OfRun::Number => stage.layout.globals,
            OfRun::Experiment => stage.experiment,
        }
    }

    /// The number of the run, or the name of its experiment.
    pub(crate) fn of<S: Store>(self, alloc: Global, stage: &Stage<S>) -> Result<Value, ActFail>
        ensures answer { let r = (S.world stage.now.store).rest in
            Gives plain result (told_or_wrong (slice_get r.run (place_of_run self))) }
        ensures fit { let r = (S.world stage.now.store).rest in
            IfOk result (λ value. IsTrue (fits_rest r (plain value))) }
    {
        // how many global variables there are rests on this: the store stands for a world
        let _stands = stage.store.shape();
        match stage.store.var(Owner::Observer, self.slot(stage)) {
            Some(value) => Ok(value.copy(alloc)?),
            None => Err(ActFail::Error(ErrorKind::WrongType)),
        }
    }
}
