//! Runs that end with an error.
use crate::playing::wrong_in;
use crate::rows::{Trial, WAYS};

const IN_COMMANDS: &[Trial<'static>] = &[
    // An error of the setup text.
    Trial {
        model: "",
        plan: "name = \"x\"\nseed = 42\nsteps = 1\nsetup = \"cro 1 [ set xcor 2.5 ]\"\ngo = \"\"\n\
world = { min-pxcor = -2, max-pxcor = 2, min-pycor = -2, max-pycor = 2, wrap-x = false, wrap-y = false }\n\
metrics = [\"[xcor] of turtle 0\"]\n",
        number: 1,
        lines: "\"1\",\"0\",\"\",\"error OutOfWorld setup:1:9\"\n",
    },
    // An error of the go text.
    Trial {
        model: "",
        plan: "name = \"x\"\nseed = 42\nsteps = 1\nsetup = \"\"\ngo = \"set x 1\\n  set x 1 / (x - 1)\"\n\
globals = { x = 0 }\nmetrics = [\"x\"]\n",
        number: 1,
        lines: "\"1\",\"0\",\"\",\"error ZeroDivide go:2:11\"\n",
    },
    // An error of a procedure stands in the code of the model.
    Trial {
        model: "globals [x]\nto setup clear-all end\nto go set x 1 / a end",
        plan: "name = \"x\"\nseed = 42\nsteps = 1\nsetup = \"setup\"\ngo = \"go\"\nmetrics = [\"x\"]\n[[vary]]\n\
name = \"a\"\nvalues = [0, 1]\n",
        number: 1,
        lines: "\"1\",\"0\",\"0\",\"\",\"error ZeroDivide model:3:15\"\n",
    },
    // An error stands behind the rows of earlier steps.
    Trial {
        model: "globals [x]\nto go\n  set x x + 1\n  if x > 2 [ set x first [] ]\nend",
        plan: "name = \"x\"\nseed = 42\nsteps = 5\nsetup = \"\"\ngo = \"go\"\nevery-step = true\n\
metrics = [\"x\"]\n",
        number: 1,
        lines: "\"1\",\"0\",\"0\",\"\"\n\"1\",\"1\",\"1\",\"\"\n\"1\",\"2\",\"2\",\"\"\n\
\"1\",\"2\",\"\",\"error OutOfList model:4:20\"\n",
    },
];

#[test]
fn an_error_of_commands_ends_a_run(rt: HostRuntime) {
    let wrong = wrong_in(rt.alloc(), IN_COMMANDS, WAYS);
    assert!(rt; wrong.is_none(), "{wrong:?}");
}

const IN_CONDITIONS: &[Trial<'static>] = &[
    // A condition that is no truth.
    Trial {
        model: "",
        plan: "name = \"x\"\nseed = 42\nsteps = 1\nsetup = \"\"\ngo = \"\"\nuntil = \"  count turtles\"\n\
metrics = [\"count turtles\"]\n",
        number: 1,
        lines: "\"1\",\"0\",\"\",\"error WrongType until:1:3\"\n",
    },
    // A condition has an error.
    Trial {
        model: "",
        plan: "name = \"x\"\nseed = 42\nsteps = 1\nsetup = \"cro 1\"\ngo = \"\"\n\
until = \"[who] of turtle 3 > 1\"\nmetrics = [\"count turtles\"]\n",
        number: 1,
        lines: "\"1\",\"0\",\"\",\"error NoAgent until:1:7\"\n",
    },
    // An error of a condition in a procedure.
    Trial {
        model: "to-report bad\n  report item 3 [1 2]\nend",
        plan: "name = \"x\"\nseed = 42\nsteps = 1\nsetup = \"\"\ngo = \"\"\nuntil = \"bad\"\nmetrics = [\"1\"]\n",
        number: 1,
        lines: "\"1\",\"0\",\"\",\"error OutOfList model:2:10\"\n",
    },
];

#[test]
fn an_error_of_a_condition_ends_a_run(rt: HostRuntime) {
    let wrong = wrong_in(rt.alloc(), IN_CONDITIONS, WAYS);
    assert!(rt; wrong.is_none(), "{wrong:?}");
}

const IN_METRICS: &[Trial<'static>] = &[
    // An error of a metric.
    Trial {
        model: "",
        plan: "name = \"x\"\nseed = 42\nsteps = 1\nsetup = \"\"\ngo = \"\"\nmetrics = [\"9000000000000 + 1\"]\n",
        number: 1,
        lines: "\"1\",\"1\",\"\",\"error Overflow metric 1:1:15\"\n",
    },
    // A metric has an error where earlier ones are measured.
    Trial {
        model: "",
        plan: "name = \"x\"\nseed = 42\nsteps = 1\nsetup = \"cro 1\"\ngo = \"ask turtles [ die ]\"\n\
every-step = true\nmetrics = [\"count turtles\", \"[who] of turtle 0\"]\n",
        number: 1,
        lines: "\"1\",\"0\",\"1\",\"0\",\"\"\n\"1\",\"1\",\"\",\"\",\"error NoAgent metric 2:1:7\"\n",
    },
    // An error of a second metric on its second line.
    Trial {
        model: "",
        plan: "name = \"x\"\nseed = 42\nsteps = 1\nsetup = \"\"\ngo = \"\"\n\
metrics = [\"1\", \"1 +\\n  (2 / 0)\"]\n",
        number: 1,
        lines: "\"1\",\"1\",\"\",\"\",\"error ZeroDivide metric 2:2:6\"\n",
    },
    // An error of a metric in a procedure.
    Trial {
        model: "to-report bad [n]\n  report first n\nend",
        plan: "name = \"x\"\nseed = 42\nsteps = 1\nsetup = \"\"\ngo = \"\"\nmetrics = [\"bad []\"]\n",
        number: 1,
        lines: "\"1\",\"1\",\"\",\"error OutOfList model:2:10\"\n",
    },
    // Ticks are off at first.
    Trial {
        model: "",
        plan: "name = \"x\"\nseed = 42\nsteps = 1\nsetup = \"\"\ngo = \"\"\nmetrics = [\"ticks\"]\n",
        number: 1,
        lines: "\"1\",\"1\",\"\",\"error TicksOff metric 1:1:1\"\n",
    },
    // A text of a metric that is too large.
    Trial {
        model: "",
        plan: "name = \"x\"\nseed = 42\nsteps = 1\nsetup = \"\"\ngo = \"\"\n\
metrics = [\"1\", \"  range 300000\"]\n",
        number: 1,
        lines: "\"1\",\"1\",\"\",\"\",\"error TooLarge metric 2:1:3\"\n",
    },
];

#[test]
fn an_error_of_a_metric_ends_a_run(rt: HostRuntime) {
    let wrong = wrong_in(rt.alloc(), IN_METRICS, WAYS);
    assert!(rt; wrong.is_none(), "{wrong:?}");
}
