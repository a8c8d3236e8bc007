//! What runs draw.
use crate::playing::wrong_in;
use crate::rows::{Trial, WAYS};

const DRAWN: &[Trial<'static>] = &[
    // Draws of the setup text.
    Trial {
        model: "",
        plan: "name = \"x\"\nseed = 42\nsteps = 1\nsetup = \"set x (list random 10 random 10 random 10)\"\n\
go = \"\"\nglobals = { x = 0 }\nmetrics = [\"x\"]\n",
        number: 1,
        lines: "\"1\",\"1\",\"[5 9 6]\",\"steps\"\n",
    },
    // A walk in random order.
    Trial {
        model: "",
        plan: "name = \"x\"\nseed = 42\nsteps = 1\nsetup = \"cro 3 set x [who] of turtles\"\ngo = \"\"\n\
globals = { x = 0 }\nmetrics = [\"x\"]\n",
        number: 1,
        lines: "\"1\",\"1\",\"[2 1 0]\",\"steps\"\n",
    },
    // A turtle has a color and a heading by draws.
    Trial {
        model: "",
        plan: "name = \"x\"\nseed = 42\nsteps = 1\nsetup = \"crt 1\"\ngo = \"\"\n\
metrics = [\"[color] of turtle 0\", \"[heading] of turtle 0\"]\n",
        number: 1,
        lines: "\"1\",\"1\",\"135\",\"339\",\"steps\"\n",
    },
    // Seeds count up.
    Trial {
        model: "",
        plan: "name = \"x\"\nseed = 42\nsteps = 1\nsetup = \"\"\ngo = \"\"\nrepetitions = 3\n\
metrics = [\"random 1000000\"]\n",
        number: 3,
        lines: "\"3\",\"1\",\"629201\",\"steps\"\n",
    },
];

#[test]
fn a_run_draws_by_its_seed(rt: HostRuntime) {
    let wrong = wrong_in(rt.alloc(), DRAWN, WAYS);
    assert!(rt; wrong.is_none(), "{wrong:?}");
}

const PUT_BACK: &[Trial<'static>] = &[
    // Draws of metrics are not kept.
    Trial {
        model: "",
        plan: "name = \"x\"\nseed = 42\nsteps = 1\nsetup = \"\"\ngo = \"\"\nevery-step = true\n\
metrics = [\"random 10\", \"random 10\"]\n",
        number: 1,
        lines: "\"1\",\"0\",\"5\",\"5\",\"\"\n\"1\",\"1\",\"5\",\"5\",\"steps\"\n",
    },
    // The stream is put back behind a metric that seeds it.
    Trial {
        model: "to-report again random-seed 1 report random 100 end",
        plan: "name = \"x\"\nseed = 42\nsteps = 2\nsetup = \"\"\ngo = \"set x random 100\"\nglobals = { x = 0 }\n\
every-step = true\nmetrics = [\"x\", \"again\", \"random 100\"]\n",
        number: 1,
        lines: "\"1\",\"0\",\"0\",\"32\",\"65\",\"\"\n\"1\",\"1\",\"65\",\"32\",\"59\",\"\"\n\
\"1\",\"2\",\"59\",\"32\",\"46\",\"steps\"\n",
    },
    // The stream is put back behind a condition, and what it changes stays.
    Trial {
        model: "to-report rolled set x x + random 2 report false end",
        plan: "name = \"x\"\nseed = 42\nsteps = 3\nsetup = \"\"\ngo = \"set y y * 100 + random 100\"\n\
globals = { x = 0, y = 0 }\nuntil = \"rolled\"\nmetrics = [\"x\", \"y\"]\n",
        number: 1,
        lines: "\"1\",\"3\",\"2\",\"655946\",\"steps\"\n",
    },
];

#[test]
fn draws_of_reporters_are_not_kept(rt: HostRuntime) {
    let wrong = wrong_in(rt.alloc(), PUT_BACK, WAYS);
    assert!(rt; wrong.is_none(), "{wrong:?}");
}
