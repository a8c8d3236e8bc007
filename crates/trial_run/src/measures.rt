//! What metrics measure.
use crate::playing::wrong_in;
use crate::rows::{Trial, WAYS};

const WORLDS: &[Trial<'static>] = &[
    // A set of all turtles grows, and a listed one does not.
    Trial {
        model: "",
        plan: "name = \"x\"\nseed = 42\nsteps = 1\n\
setup = \"cro 1 set a turtles set b turtle-set turtles cro 2\"\ngo = \"\"\n\
globals = { a = 0, b = 0 }\nmetrics = [\"count a\", \"count b\"]\n",
        number: 1,
        lines: "\"1\",\"1\",\"3\",\"1\",\"steps\"\n",
    },
    // A coordinate wraps.
    Trial {
        model: "",
        plan: "name = \"x\"\nseed = 42\nsteps = 1\nsetup = \"cro 1 [ set xcor 2.5 ]\"\ngo = \"\"\n\
world = { min-pxcor = -2, max-pxcor = 2, min-pycor = -2, max-pycor = 2, wrap-x = true, wrap-y = true }\n\
metrics = [\"[xcor] of turtle 0\"]\n",
        number: 1,
        lines: "\"1\",\"1\",\"-2.5\",\"steps\"\n",
    },
    // A patch in a corner shares with fewer.
    Trial {
        model: "patches-own [p]",
        plan: "name = \"x\"\nseed = 42\nsteps = 1\nsetup = \"ask patch 0 0 [ set p 8 ] diffuse p 1\"\ngo = \"\"\n\
world = { min-pxcor = -1, max-pxcor = 1, min-pycor = -1, max-pycor = 1, wrap-x = false, wrap-y = false }\n\
metrics = [\"[p] of patch 0 0\", \"[p] of patch 1 1\"]\n",
        number: 1,
        lines: "\"1\",\"1\",\"0\",\"1\",\"steps\"\n",
    },
    // A world of one patch keeps all.
    Trial {
        model: "patches-own [p]",
        plan: "name = \"x\"\nseed = 42\nsteps = 1\nsetup = \"ask patch 0 0 [ set p 8 ] diffuse p 1\"\ngo = \"\"\n\
world = { min-pxcor = 0, max-pxcor = 0, min-pycor = 0, max-pycor = 0, wrap-x = true, wrap-y = true }\n\
metrics = [\"[p] of patch 0 0\", \"[p] of patch 1 1\"]\n",
        number: 1,
        lines: "\"1\",\"1\",\"8\",\"8\",\"steps\"\n",
    },
    // A metric kills every turtle.
    Trial {
        model: "to-report kill let n count turtles ask turtles [ die ] report n end",
        plan: "name = \"x\"\nseed = 42\nsteps = 2\nsetup = \"cro 3\"\ngo = \"cro 2\"\nevery-step = true\n\
metrics = [\"kill\", \"count turtles\"]\n",
        number: 1,
        lines: "\"1\",\"0\",\"3\",\"0\",\"\"\n\"1\",\"1\",\"2\",\"0\",\"\"\n\"1\",\"2\",\"2\",\"0\",\"steps\"\n",
    },
];

#[test]
fn metrics_measure_the_world(rt: HostRuntime) {
    let wrong = wrong_in(rt.alloc(), WORLDS, WAYS);
    assert!(rt; wrong.is_none(), "{wrong:?}");
}

const VALUES: &[Trial<'static>] = &[
    // Numbers are rounded to millionths.
    Trial {
        model: "",
        plan: "name = \"x\"\nseed = 42\nsteps = 1\nsetup = \"\"\ngo = \"\"\n\
metrics = [\"2 / 3\", \"round -0.5\", \"2 - 1 - 1\", \"2 + 3 * 2 ^ 2\"]\n",
        number: 1,
        lines: "\"1\",\"1\",\"0.666667\",\"0\",\"0\",\"14\",\"steps\"\n",
    },
    // Sets and agents have texts.
    Trial {
        model: "breed [foxes fox]",
        plan: "name = \"x\"\nseed = 42\nsteps = 1\nsetup = \"create-ordered-foxes 2\"\ngo = \"\"\n\
metrics = [\"foxes\", \"turtle 1\", \"patch 0 0\", \"sort turtles\", \"nobody\", \"\\\"a b\\\"\", \"[\\\"a b\\\"]\"]\n\
",
        number: 1,
        lines: "\"1\",\"1\",\"(agentset, 2 foxes)\",\"(fox 1)\",\"(patch 0 0)\",\"[(fox 0) (fox 1)]\",\"nobody\",\"a b\",\"[\"\"a b\"\"]\",\"steps\"\n",
    },
];

#[test]
fn metrics_have_texts(rt: HostRuntime) {
    let wrong = wrong_in(rt.alloc(), VALUES, WAYS);
    assert!(rt; wrong.is_none(), "{wrong:?}");
}
