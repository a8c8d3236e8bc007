//! Runs that measure where a condition is true.
use crate::playing::wrong_in;
use crate::rows::{Trial, WAYS};

const MEASURED: &[Trial<'static>] = &[
    // At every other step, and the last row has the end.
    Trial {
        model: "",
        plan: "format = 2\nname = \"x\"\nsteps = 4\nsetup = \"\"\ngo = \"cro 1\"\n\
measure-when = \"count turtles mod 2 = 0\"\nmetrics = [\"count turtles\"]\n",
        number: 1,
        lines: "\"1\",\"0\",\"0\",\"\"\n\"1\",\"2\",\"2\",\"\"\n\"1\",\"4\",\"4\",\"steps\"\n",
    },
    // Nothing is measured at the last step, so the end has a row of its own.
    Trial {
        model: "",
        plan: "format = 2\nname = \"x\"\nsteps = 3\nsetup = \"\"\ngo = \"cro 1\"\n\
measure-when = \"count turtles mod 2 = 0\"\nmetrics = [\"count turtles\"]\n",
        number: 1,
        lines: "\"1\",\"0\",\"0\",\"\"\n\"1\",\"2\",\"2\",\"\"\n\"1\",\"3\",\"\",\"steps\"\n",
    },
    // Always.
    Trial {
        model: "",
        plan: "format = 2\nname = \"x\"\nsteps = 1\nsetup = \"\"\ngo = \"cro 1\"\nmeasure-when = \"true\"\n\
metrics = [\"count turtles\"]\n",
        number: 1,
        lines: "\"1\",\"0\",\"0\",\"\"\n\"1\",\"1\",\"1\",\"steps\"\n",
    },
    // At step 0 alone.
    Trial {
        model: "",
        plan: "format = 2\nname = \"x\"\nsteps = 2\nsetup = \"\"\ngo = \"cro 1\"\n\
measure-when = \"count turtles = 0\"\nmetrics = [\"count turtles\"]\n",
        number: 1,
        lines: "\"1\",\"0\",\"0\",\"\"\n\"1\",\"2\",\"\",\"steps\"\n",
    },
    // Without a metric.
    Trial {
        model: "",
        plan: "format = 2\nname = \"x\"\nsteps = 1\nsetup = \"\"\ngo = \"\"\nmeasure-when = \"true\"\n",
        number: 1,
        lines: "\"1\",\"0\",\"\"\n\"1\",\"1\",\"steps\"\n",
    },
    // Without a condition the metrics are measured at the end.
    Trial {
        model: "",
        plan: "format = 2\nname = \"x\"\nsteps = 2\nsetup = \"\"\ngo = \"cro 1\"\nmetrics = [\"count turtles\"]\n",
        number: 1,
        lines: "\"1\",\"2\",\"2\",\"steps\"\n",
    },
];

#[test]
fn metrics_are_measured_where_a_condition_is_true(rt: HostRuntime) {
    let wrong = wrong_in(rt.alloc(), MEASURED, WAYS);
    assert!(rt; wrong.is_none(), "{wrong:?}");
}

const ENDS: &[Trial<'static>] = &[
    // Never true: a row of its own at each kind of end.
    Trial {
        model: "",
        plan: "format = 2\nname = \"x\"\nsteps = 2\nsetup = \"\"\ngo = \"cro 1\"\nmeasure-when = \"false\"\n\
metrics = [\"count turtles\"]\n",
        number: 1,
        lines: "\"1\",\"2\",\"\",\"steps\"\n",
    },
    Trial {
        model: "",
        plan: "format = 2\nname = \"x\"\nsetup = \"\"\ngo = \"cro 1\"\nuntil = \"count turtles = 1\"\n\
measure-when = \"false\"\nmetrics = [\"count turtles\"]\n",
        number: 1,
        lines: "\"1\",\"1\",\"\",\"condition\"\n",
    },
    Trial {
        model: "",
        plan: "format = 2\nname = \"x\"\nsetup = \"\"\ngo = \"stop\"\nmeasure-when = \"false\"\n\
metrics = [\"count turtles\"]\n",
        number: 1,
        lines: "\"1\",\"0\",\"\",\"stop\"\n",
    },
    // True at the count at which the next step is stopped.
    Trial {
        model: "",
        plan: "format = 2\nname = \"x\"\nsetup = \"\"\ngo = \"if count turtles = 3 [ stop ] cro 1\"\n\
measure-when = \"count turtles != 1\"\nmetrics = [\"count turtles\"]\n",
        number: 1,
        lines: "\"1\",\"0\",\"0\",\"\"\n\"1\",\"2\",\"2\",\"\"\n\"1\",\"3\",\"3\",\"stop\"\n",
    },
    // It isn't asked behind a step that was stopped.
    Trial {
        model: "",
        plan: "format = 2\nname = \"x\"\nsetup = \"\"\ngo = \"cro 1 if count turtles > 1 [ stop ]\"\n\
measure-when = \"count turtles > 1\"\nmetrics = [\"count turtles\"]\n",
        number: 1,
        lines: "\"1\",\"1\",\"\",\"stop\"\n",
    },
    // Both conditions are true at once.
    Trial {
        model: "",
        plan: "format = 2\nname = \"x\"\nsetup = \"\"\ngo = \"cro 1\"\nuntil = \"count turtles = 2\"\n\
measure-when = \"count turtles = 2\"\nmetrics = [\"count turtles\"]\n",
        number: 1,
        lines: "\"1\",\"2\",\"2\",\"condition\"\n",
    },
];

#[test]
fn an_end_stands_at_its_count_of_steps(rt: HostRuntime) {
    let wrong = wrong_in(rt.alloc(), ENDS, WAYS);
    assert!(rt; wrong.is_none(), "{wrong:?}");
}

const CHANGES: &[Trial<'static>] = &[
    // Draws of the condition are not kept.
    Trial {
        model: "",
        plan: "format = 2\nname = \"x\"\nseed = 42\nsteps = 1\nsetup = \"\"\ngo = \"\"\n\
measure-when = \"random 10 >= 0\"\nmetrics = [\"random 10\", \"random 10\"]\n",
        number: 1,
        lines: "\"1\",\"0\",\"5\",\"5\",\"\"\n\"1\",\"1\",\"5\",\"5\",\"steps\"\n",
    },
    // What else it changes stays.
    Trial {
        model: "to-report kill ask turtles [ die ] report true end",
        plan: "format = 2\nname = \"x\"\nsteps = 1\nsetup = \"cro 3\"\ngo = \"cro 2\"\nmeasure-when = \"kill\"\n\
metrics = [\"count turtles\"]\n",
        number: 1,
        lines: "\"1\",\"0\",\"0\",\"\"\n\"1\",\"1\",\"0\",\"steps\"\n",
    },
    Trial {
        model: "to-report mark set x x + 1 report true end",
        plan: "format = 2\nname = \"x\"\nsteps = 1\nsetup = \"\"\ngo = \"\"\nmeasure-when = \"mark\"\n\
globals = { x = 0 }\nmetrics = [\"x\"]\n",
        number: 1,
        lines: "\"1\",\"0\",\"1\",\"\"\n\"1\",\"1\",\"2\",\"steps\"\n",
    },
];

#[test]
fn a_condition_draws_nothing_that_stays(rt: HostRuntime) {
    let wrong = wrong_in(rt.alloc(), CHANGES, WAYS);
    assert!(rt; wrong.is_none(), "{wrong:?}");
}

const FAULTS: &[Trial<'static>] = &[
    // A value that is no truth, an error, and a spent budget: rows measured before stay.
    Trial {
        model: "",
        plan: "format = 2\nname = \"x\"\nsteps = 1\nsetup = \"\"\ngo = \"\"\nmeasure-when = \"  count turtles\"\n\
metrics = [\"count turtles\"]\n",
        number: 1,
        lines: "\"1\",\"0\",\"\",\"error WrongType measure-when:1:3\"\n",
    },
    Trial {
        model: "",
        plan: "format = 2\nname = \"x\"\nsteps = 1\nsetup = \"\"\ngo = \"\"\n\
measure-when = \"[who] of turtle 3 > 1\"\nmetrics = [\"count turtles\"]\n",
        number: 1,
        lines: "\"1\",\"0\",\"\",\"error NoAgent measure-when:1:7\"\n",
    },
    Trial {
        model: "to-report slow report true end",
        plan: "format = 2\nname = \"x\"\nsteps = 5\nsetup = \"\"\ngo = \"\"\nmeasure-when = \"slow\"\nbudget = 1\n\
metrics = [\"count turtles\"]\n",
        number: 1,
        lines: "\"1\",\"0\",\"0\",\"\"\n\"1\",\"0\",\"\",\"budget\"\n",
    },
    Trial {
        model: "to-report slow report true end",
        plan: "format = 2\nname = \"x\"\nsteps = 5\nsetup = \"\"\ngo = \"\"\nmeasure-when = \"slow\"\nbudget = 2\n\
metrics = [\"count turtles\"]\n",
        number: 1,
        lines: "\"1\",\"0\",\"0\",\"\"\n\"1\",\"1\",\"\",\"budget\"\n",
    },
];

#[test]
fn a_fault_of_a_condition_has_a_row(rt: HostRuntime) {
    let wrong = wrong_in(rt.alloc(), FAULTS, WAYS);
    assert!(rt; wrong.is_none(), "{wrong:?}");
}
