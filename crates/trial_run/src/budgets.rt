//! Runs whose budget is spent.
use crate::playing::wrong_in;
use crate::rows::{Trial, WAYS};

const IN_TEXTS: &[Trial<'static>] = &[
    // A budget is spent by steps.
    Trial {
        model: "",
        plan: "name = \"x\"\nseed = 42\nsteps = 0\nsetup = \"\"\ngo = \"\"\nbudget = 10\n",
        number: 1,
        lines: "\"1\",\"10\",\"budget\"\n",
    },
    // A budget is spent in the setup text.
    Trial {
        model: "",
        plan: "name = \"x\"\nseed = 42\nsteps = 1\nsetup = \"loop [ ]\"\ngo = \"\"\nbudget = 5\n",
        number: 1,
        lines: "\"1\",\"0\",\"budget\"\n",
    },
    // The budget is spent in the go text.
    Trial {
        model: "",
        plan: "name = \"x\"\nseed = 42\nsteps = 1\nsetup = \"\"\ngo = \"repeat 100 [ cro 1 ]\"\nbudget = 20\n\
metrics = [\"count turtles\"]\n",
        number: 1,
        lines: "\"1\",\"0\",\"\",\"budget\"\n",
    },
    // A budget is spent by steps, behind rows.
    Trial {
        model: "",
        plan: "name = \"x\"\nseed = 42\nsteps = 0\nsetup = \"\"\ngo = \"\"\nevery-step = true\nbudget = 3\n\
metrics = [\"1\"]\n",
        number: 1,
        lines: "\"1\",\"0\",\"1\",\"\"\n\"1\",\"1\",\"1\",\"\"\n\"1\",\"2\",\"1\",\"\"\n\"1\",\"3\",\"1\",\"\"\n\
\"1\",\"3\",\"\",\"budget\"\n",
    },
    // The budget is spent in the second step.
    Trial {
        model: "",
        plan: "name = \"x\"\nseed = 42\nsteps = 5\nsetup = \"\"\ngo = \"cro 1 cro 1\"\nbudget = 5\n\
every-step = true\nmetrics = [\"count turtles\"]\n",
        number: 1,
        lines: "\"1\",\"0\",\"0\",\"\"\n\"1\",\"1\",\"2\",\"\"\n\"1\",\"1\",\"\",\"budget\"\n",
    },
    // The last unit is for the last step.
    Trial {
        model: "",
        plan: "name = \"x\"\nseed = 42\nsteps = 2\nsetup = \"\"\ngo = \"cro 1\"\nbudget = 4\n\
metrics = [\"count turtles\"]\n",
        number: 1,
        lines: "\"1\",\"2\",\"2\",\"steps\"\n",
    },
];

#[test]
fn a_spent_budget_ends_a_run(rt: HostRuntime) {
    let wrong = wrong_in(rt.alloc(), IN_TEXTS, WAYS);
    assert!(rt; wrong.is_none(), "{wrong:?}");
}

const IN_REPORTERS: &[Trial<'static>] = &[
    // A metric spends the budget.
    Trial {
        model: "to-report slow\n  loop [ ]\nend",
        plan: "name = \"x\"\nseed = 42\nsteps = 1\nsetup = \"\"\ngo = \"\"\nbudget = 50\nmetrics = [\"slow\"]\n",
        number: 1,
        lines: "\"1\",\"1\",\"\",\"budget\"\n",
    },
    // A second metric spends the budget.
    Trial {
        model: "to-report slow loop [ ] end",
        plan: "name = \"x\"\nseed = 42\nsteps = 1\nsetup = \"\"\ngo = \"\"\nevery-step = true\nbudget = 50\n\
metrics = [\"1\", \"slow\"]\n",
        number: 1,
        lines: "\"1\",\"0\",\"\",\"\",\"budget\"\n",
    },
    // The second metric of a later step spends the budget.
    Trial {
        model: "to-report slow [n] repeat n [ ] report n end",
        plan: "name = \"x\"\nseed = 42\nsteps = 0\nsetup = \"\"\ngo = \"cro 1\"\nevery-step = true\nbudget = 31\n\
metrics = [\"count turtles\", \"slow 10\"]\n",
        number: 1,
        lines: "\"1\",\"0\",\"0\",\"10\",\"\"\n\"1\",\"1\",\"1\",\"10\",\"\"\n\"1\",\"2\",\"\",\"\",\"budget\"\n",
    },
    // A condition spends the budget.
    Trial {
        model: "to-report slow loop [ ] end",
        plan: "name = \"x\"\nseed = 42\nsteps = 1\nsetup = \"\"\ngo = \"cro 1\"\nuntil = \"slow\"\nbudget = 20\n\
metrics = [\"count turtles\"]\n",
        number: 1,
        lines: "\"1\",\"0\",\"\",\"budget\"\n",
    },
];

#[test]
fn a_budget_that_a_reporter_spends_ends_a_run(rt: HostRuntime) {
    let wrong = wrong_in(rt.alloc(), IN_REPORTERS, WAYS);
    assert!(rt; wrong.is_none(), "{wrong:?}");
}
