//! Runs that end behind their steps, by their condition, or as they are stopped.
use crate::playing::wrong_in;
use crate::rows::{Trial, WAYS};

const CONDITIONS: &[Trial<'static>] = &[
    // A condition is met behind the steps.
    Trial {
        model: "",
        plan: "name = \"x\"\nseed = 42\nsteps = 0\nsetup = \"\"\ngo = \"cro 1\"\nevery-step = true\n\
until = \"count turtles > 2\"\nmetrics = [\"count turtles\"]\n",
        number: 1,
        lines: "\"1\",\"0\",\"0\",\"\"\n\"1\",\"1\",\"1\",\"\"\n\"1\",\"2\",\"2\",\"\"\n\
\"1\",\"3\",\"3\",\"condition\"\n",
    },
    // A condition that is met at first.
    Trial {
        model: "",
        plan: "name = \"x\"\nseed = 42\nsteps = 1\nsetup = \"\"\ngo = \"cro 1\"\nuntil = \"true\"\n\
metrics = [\"count turtles\"]\n",
        number: 1,
        lines: "\"1\",\"0\",\"0\",\"condition\"\n",
    },
    // Steps come before the condition.
    Trial {
        model: "",
        plan: "name = \"x\"\nseed = 42\nsteps = 2\nsetup = \"\"\ngo = \"cro 1\"\nuntil = \"count turtles > 1\"\n\
metrics = [\"count turtles\"]\n",
        number: 1,
        lines: "\"1\",\"2\",\"2\",\"steps\"\n",
    },
    // A condition comes before the unit of a step.
    Trial {
        model: "",
        plan: "name = \"x\"\nseed = 42\nsteps = 0\nsetup = \"\"\ngo = \"cro 1\"\nuntil = \"count turtles > 1\"\n\
budget = 4\nmetrics = [\"count turtles\"]\n",
        number: 1,
        lines: "\"1\",\"2\",\"2\",\"condition\"\n",
    },
];

#[test]
fn a_condition_is_seen_before_each_step(rt: HostRuntime) {
    let wrong = wrong_in(rt.alloc(), CONDITIONS, WAYS);
    assert!(rt; wrong.is_none(), "{wrong:?}");
}

const STOPS: &[Trial<'static>] = &[
    // The go text is stopped, and the step is not counted.
    Trial {
        model: "",
        plan: "name = \"x\"\nseed = 42\nsteps = 0\nsetup = \"\"\ngo = \"cro 1 if count turtles > 2 [ stop ]\"\n\
metrics = [\"count turtles\"]\n",
        number: 1,
        lines: "\"1\",\"2\",\"3\",\"stop\"\n",
    },
    // Stopped at every step.
    Trial {
        model: "",
        plan: "name = \"x\"\nseed = 42\nsteps = 0\nsetup = \"\"\ngo = \"cro 1 if count turtles > 2 [ stop ]\"\n\
every-step = true\nmetrics = [\"count turtles\"]\n",
        number: 1,
        lines: "\"1\",\"0\",\"0\",\"\"\n\"1\",\"1\",\"1\",\"\"\n\"1\",\"2\",\"2\",\"stop\"\n",
    },
    // A procedure that is stopped stops the go text.
    Trial {
        model: "to go cro 1 stop end",
        plan: "name = \"x\"\nseed = 42\nsteps = 9\nsetup = \"\"\ngo = \"go cro 1\"\n\
metrics = [\"count turtles\"]\n",
        number: 1,
        lines: "\"1\",\"0\",\"2\",\"stop\"\n",
    },
    // A procedure that is stopped in a block stops nothing else.
    Trial {
        model: "to go cro 1 stop end",
        plan: "name = \"x\"\nseed = 42\nsteps = 2\nsetup = \"\"\ngo = \"if true [ go ] ask turtles [ stop ]\"\n\
metrics = [\"count turtles\"]\n",
        number: 1,
        lines: "\"1\",\"2\",\"2\",\"steps\"\n",
    },
    // A stop of the setup text ends that text alone.
    Trial {
        model: "",
        plan: "name = \"x\"\nseed = 42\nsteps = 2\nsetup = \"cro 1 stop cro 1\"\ngo = \"cro 1\"\n\
metrics = [\"count turtles\"]\n",
        number: 1,
        lines: "\"1\",\"2\",\"3\",\"steps\"\n",
    },
];

#[test]
fn a_stop_of_the_go_text_ends_a_run(rt: HostRuntime) {
    let wrong = wrong_in(rt.alloc(), STOPS, WAYS);
    assert!(rt; wrong.is_none(), "{wrong:?}");
}

const BARE: &[Trial<'static>] = &[
    // No metric, at every step.
    Trial {
        model: "",
        plan: "name = \"x\"\nseed = 42\nsteps = 2\nsetup = \"\"\ngo = \"cro 1\"\nevery-step = true\n",
        number: 1,
        lines: "\"1\",\"0\",\"\"\n\"1\",\"1\",\"\"\n\"1\",\"2\",\"steps\"\n",
    },
    // No metric, at the end.
    Trial {
        model: "",
        plan: "name = \"x\"\nseed = 42\nsteps = 2\nsetup = \"\"\ngo = \"cro 1\"\n",
        number: 1,
        lines: "\"1\",\"2\",\"steps\"\n",
    },
];

#[test]
fn runs_without_metrics_have_rows(rt: HostRuntime) {
    let wrong = wrong_in(rt.alloc(), BARE, WAYS);
    assert!(rt; wrong.is_none(), "{wrong:?}");
}
