//! What is set before the setup text.
use crate::playing::wrong_in;
use crate::rows::{Trial, WAYS};

const SET: &[Trial<'static>] = &[
    // What a run is called is known to the setup text.
    Trial {
        model: "globals [a b]",
        plan: "name = \"trial \\\"q\\\"\"\nseed = 42\nsteps = 1\n\
setup = \"set a behaviorspace-run-number set b behaviorspace-experiment-name\"\ngo = \"\"\n\
repetitions = 3\nmetrics = [\"a\", \"b\", \"(word a b)\"]\n",
        number: 2,
        lines: "\"2\",\"1\",\"2\",\"trial \"\"q\"\"\",\"2trial \"\"q\"\"\",\"steps\"\n",
    },
    // Globals of the model are set as well.
    Trial {
        model: "globals [g]",
        plan: "name = \"x\"\nseed = 42\nsteps = 1\nsetup = \"\"\ngo = \"\"\nglobals = { g = 7 }\n\
metrics = [\"g\"]\n",
        number: 1,
        lines: "\"1\",\"1\",\"7\",\"steps\"\n",
    },
];

#[test]
fn globals_are_set_before_the_setup_text(rt: HostRuntime) {
    let wrong = wrong_in(rt.alloc(), SET, WAYS);
    assert!(rt; wrong.is_none(), "{wrong:?}");
}

const VARIED: &[Trial<'static>] = &[
    // What is varied comes after what is set.
    Trial {
        model: "",
        plan: "name = \"x\"\nseed = 42\nsteps = 1\nsetup = \"\"\ngo = \"\"\nglobals = { a = 1, b = 2 }\n\
metrics = [\"a\", \"b\"]\n[[vary]]\nname = \"A\"\n\
values = [5, \"\\\"say \\\\\\\"go\\\\\\\"\\\"\", \"[1 [2 \\\"x\\\"] red]\", \"nobody\", true]\n",
        number: 2,
        lines: "\"2\",\"say \"\"go\"\"\",\"1\",\"say \"\"go\"\"\",\"2\",\"steps\"\n",
    },
    // A list is varied.
    Trial {
        model: "",
        plan: "name = \"x\"\nseed = 42\nsteps = 1\nsetup = \"\"\ngo = \"\"\nglobals = { a = 1, b = 2 }\n\
metrics = [\"a\", \"b\"]\n[[vary]]\nname = \"A\"\n\
values = [5, \"\\\"say\\\"\", \"[1 [2 \\\"x\\\"] red]\", \"nobody\", true]\n",
        number: 3,
        lines: "\"3\",\"[1 [2 \"\"x\"\"] 15]\",\"1\",\"[1 [2 \"\"x\"\"] 15]\",\"2\",\"steps\"\n",
    },
    // The world and the seed are varied.
    Trial {
        model: "",
        plan: "name = \"x\"\nseed = 42\nsteps = 1\nsetup = \"\"\ngo = \"\"\n\
metrics = [\"max-pxcor\", \"count patches\", \"random 1000\"]\n[[vary]]\nname = \"max-pxcor\"\n\
from = 0\nstep = 1\nto = 3\n[[vary]]\nname = \"random-seed\"\nvalues = [7, 42]\n",
        number: 6,
        lines: "\"6\",\"2\",\"42\",\"1\",\"2\",\"627\",\"865\",\"steps\"\n",
    },
    // A run goes on where the one before it has an error.
    Trial {
        model: "globals [x]\nto setup clear-all end\nto go set x 1 / a end",
        plan: "name = \"x\"\nseed = 42\nsteps = 1\nsetup = \"setup\"\ngo = \"go\"\nmetrics = [\"x\"]\n[[vary]]\n\
name = \"a\"\nvalues = [0, 1]\n",
        number: 2,
        lines: "\"2\",\"1\",\"1\",\"1\",\"steps\"\n",
    },
];

#[test]
fn a_run_has_its_settings_alone(rt: HostRuntime) {
    let wrong = wrong_in(rt.alloc(), VARIED, WAYS);
    assert!(rt; wrong.is_none(), "{wrong:?}");
}
