//! Rows as the NetLogo Dictionary has the words, and names that have no row.
use Input::{ArrowCommands, ArrowReporter, Commands, Expression, Fresh, MaybeCommands, Value};
use nl_words::base::{ROWS, base_words};
use nl_words::codes;
use nl_words::entry::{Entry, Input, Kinds, Leaving, Manner, Role, Runner, Turns};

const TEST: Input = Input::Reporter;

const NAME: Input = Input::Variable;

const ALL: Kinds = Kinds {
    observer: true,
    turtle: true,
    patch: true,
    link: true,
};

const NONE: Kinds = Kinds {
    observer: false,
    turtle: false,
    patch: false,
    link: false,
};

const OBSERVER: Kinds = Kinds {
    observer: true,
    turtle: false,
    patch: false,
    link: false,
};

const TURTLE: Kinds = Kinds {
    observer: false,
    turtle: true,
    patch: false,
    link: false,
};

const PATCH: Kinds = Kinds {
    observer: false,
    turtle: false,
    patch: true,
    link: false,
};

const LINK: Kinds = Kinds {
    observer: false,
    turtle: false,
    patch: false,
    link: true,
};

const TURTLE_PATCH: Kinds = Kinds {
    observer: false,
    turtle: true,
    patch: true,
    link: false,
};

const TURTLE_LINK: Kinds = Kinds {
    observer: false,
    turtle: true,
    patch: false,
    link: true,
};

const NOT_LINK: Kinds = Kinds {
    observer: true,
    turtle: true,
    patch: true,
    link: false,
};

const NOT_OBSERVER: Kinds = Kinds {
    observer: false,
    turtle: true,
    patch: true,
    link: true,
};

/// A name with its role, its inputs, who runs it, and what it gives.
type Known = (&'static str, Role, &'static [Input], Kinds, Kinds);

const KNOWN: &[Known] = &[
    ("gray", Role::Constant, &[], ALL, NONE),
    ("nobody", Role::Constant, &[], ALL, NONE),
    ("pi", Role::Reporter, &[], ALL, NONE),
    ("who", Role::Variable, &[], TURTLE, NONE),
    ("breed", Role::Variable, &[], TURTLE_LINK, NONE),
    ("pcolor", Role::Variable, &[], TURTLE_PATCH, NONE),
    ("tie-mode", Role::Variable, &[], LINK, NONE),
    ("ask", Role::Command, &[Value, Commands], ALL, NONE),
    ("let", Role::Command, &[Fresh, Value], ALL, NONE),
    ("set", Role::Command, &[NAME, Value], ALL, NONE),
    (
        "ifelse",
        Role::Command,
        &[Value, Commands, Commands],
        ALL,
        NONE,
    ),
    ("while", Role::Command, &[TEST, Commands], ALL, NONE),
    ("foreach", Role::Command, &[Value, ArrowCommands], ALL, NONE),
    ("map", Role::Reporter, &[ArrowReporter, Value], ALL, NONE),
    ("filter", Role::Reporter, &[ArrowReporter, Value], ALL, NONE),
    ("reduce", Role::Reporter, &[ArrowReporter, Value], ALL, NONE),
    (
        "sort-by",
        Role::Reporter,
        &[ArrowReporter, Value],
        ALL,
        NONE,
    ),
    (
        "n-values",
        Role::Reporter,
        &[Value, ArrowReporter],
        ALL,
        NONE,
    ),
    ("->", Role::Reserved, &[], ALL, NONE),
    (
        "cro",
        Role::Command,
        &[Value, MaybeCommands],
        OBSERVER,
        NONE,
    ),
    (
        "sprout",
        Role::Command,
        &[Value, MaybeCommands],
        PATCH,
        NONE,
    ),
    ("fd", Role::Command, &[Value], TURTLE, NONE),
    ("uphill4", Role::Command, &[NAME], TURTLE, NONE),
    ("diffuse", Role::Command, &[NAME, Value], OBSERVER, NONE),
    ("hide-link", Role::Command, &[], LINK, NONE),
    (
        "set-plot-x-range",
        Role::Command,
        &[Value, Value],
        ALL,
        NONE,
    ),
    ("watch-me", Role::Command, &[], NOT_OBSERVER, NONE),
    ("to-report", Role::Reserved, &[], ALL, NONE),
    ("mod", Role::Operator(5), &[Value, Value], ALL, NONE),
    ("-", Role::Operator(6), &[Value, Value], ALL, NONE),
    ("xor", Role::Operator(9), &[Value, Value], ALL, NONE),
    (
        "ifelse-value",
        Role::Reporter,
        &[Expression, TEST, TEST],
        ALL,
        NONE,
    ),
    (
        "replace-item",
        Role::Reporter,
        &[Value, Value, Value],
        ALL,
        NONE,
    ),
    ("of", Role::Operator(2), &[TEST, Value], ALL, NONE),
    ("self", Role::Reporter, &[], NOT_OBSERVER, NONE),
    (
        "at-points",
        Role::Operator(1),
        &[Value, Value],
        NOT_LINK,
        NOT_OBSERVER,
    ),
    (
        "in-cone",
        Role::Operator(1),
        &[Value, Value, Value],
        TURTLE,
        NOT_OBSERVER,
    ),
    (
        "max-n-of",
        Role::Reporter,
        &[Value, Value, TEST],
        ALL,
        NOT_OBSERVER,
    ),
    ("sort-on", Role::Reporter, &[TEST, Value], ALL, NONE),
    ("turtle-set", Role::Reporter, &[Value], ALL, TURTLE),
    (
        "patch-at",
        Role::Reporter,
        &[Value, Value],
        TURTLE_PATCH,
        PATCH,
    ),
    ("my-links", Role::Reporter, &[], TURTLE, LINK),
    ("other-end", Role::Reporter, &[], TURTLE_LINK, TURTLE),
];

/// The row of a word.
fn row_of(name: &str) -> Option<Entry> {
    let words = base_words();
    let row = words.find(name.as_bytes())?;
    Some(*row)
}

/// Whether the row of the word says this.
fn says(known: &Known) -> bool {
    let (name, role, inputs, runs, gives) = *known;
    match row_of(name) {
        Some(row) => {
            row.role == role && row.inputs == inputs && row.runs == runs && row.gives == gives
        }
        None => false,
    }
}

#[test]
fn rows_say_what_the_dictionary_says(rt: HostRuntime) {
    for known in KNOWN {
        assert!(rt; says(known), "{}", known.0);
    }
}

const BLOCKS: &[(&str, Runner)] = &[
    ("ask", Runner::Given),
    ("of", Runner::Given),
    ("with-max", Runner::Given),
    ("sort-on", Runner::Given),
    ("all?", Runner::Given),
    ("while", Runner::Same),
    ("ifelse-value", Runner::Same),
    ("loop", Runner::Same),
    ("foreach", Runner::Same),
    ("sort-by", Runner::Same),
    ("hatch", Runner::Turtles),
    ("sprout", Runner::Turtles),
    ("cro", Runner::Turtles),
    ("create-link-with", Runner::Links),
    ("create-links-from", Runner::Links),
    ("fd", Runner::NoBlock),
    ("who", Runner::NoBlock),
];

fn has_blocks(name: &str, blocks: Runner) -> bool {
    match row_of(name) {
        Some(row) => row.blocks == blocks,
        None => false,
    }
}

#[test]
fn blocks_are_run_by_whom_the_guide_says(rt: HostRuntime) {
    for &(name, blocks) in BLOCKS {
        assert!(rt; has_blocks(name, blocks), "{name}");
    }
}

const MANNERS: &[(&str, Manner, bool)] = &[
    ("set", Manner::Set, false),
    ("diffuse", Manner::Spread, false),
    ("diffuse4", Manner::Spread, false),
    ("uphill", Manner::Spread, false),
    ("downhill4", Manner::Spread, false),
    ("let", Manner::Run, false),
    ("who", Manner::Run, true),
    ("pxcor", Manner::Run, true),
    ("pycor", Manner::Run, true),
    ("end1", Manner::Run, true),
    ("end2", Manner::Run, true),
    ("xcor", Manner::Run, false),
    ("breed", Manner::Run, false),
];

fn has_manner(name: &str, manner: Manner, fixed: bool) -> bool {
    match row_of(name) {
        Some(row) => row.manner == manner && row.fixed == fixed,
        None => false,
    }
}

#[test]
fn variables_are_set_spread_or_fixed(rt: HostRuntime) {
    for &(name, manner, fixed) in MANNERS {
        assert!(rt; has_manner(name, manner, fixed), "{name}");
    }
}

const LEAVING: &[(&str, Leaving)] = &[
    ("report", Leaving::Reports),
    ("stop", Leaving::Stops),
    ("die", Leaving::Stays),
    ("loop", Leaving::Stays),
];

fn has_leaving(name: &str, leaving: Leaving) -> bool {
    match row_of(name) {
        Some(row) => row.leaving == leaving,
        None => false,
    }
}

const TURNS: &[(&str, Turns)] = &[
    ("foreach", Turns::ValueOfEachList),
    ("map", Turns::ValueOfEachList),
    ("filter", Turns::OneValue),
    ("n-values", Turns::OneValue),
    ("reduce", Turns::TwoValues),
    ("sort-by", Turns::TwoValues),
    ("repeat", Turns::NoTurn),
    ("sort-on", Turns::NoTurn),
    ("->", Turns::NoTurn),
];

fn has_turns(name: &str, turns: Turns) -> bool {
    match row_of(name) {
        Some(row) => row.turns == turns,
        None => false,
    }
}

#[test]
fn turns_have_so_many_values(rt: HostRuntime) {
    for &(name, turns) in TURNS {
        assert!(rt; has_turns(name, turns), "{name}");
    }
}

#[test]
fn two_words_leave_a_procedure(rt: HostRuntime) {
    for &(name, leaving) in LEAVING {
        assert!(rt; has_leaving(name, leaving), "{name}");
    }
}

const MANY: &[(&str, bool)] = &[
    ("list", true),
    ("se", true),
    ("range", true),
    ("link-set", true),
    ("foreach", true),
    ("map", true),
    ("filter", false),
    ("n-values", false),
    ("sum", false),
    ("item", false),
];

fn takes_many(name: &str, many: bool) -> bool {
    match row_of(name) {
        Some(row) => row.many == many,
        None => false,
    }
}

#[test]
fn some_words_take_any_number_of_inputs_in_parentheses(rt: HostRuntime) {
    for &(name, many) in MANY {
        assert!(rt; takes_many(name, many), "{name}");
    }
}

const NO_WORDS: &[&str] = &[
    "", "as", "asks", "ASK", " ask", "!", "yello", "yellowy", "->>", "for-each", "MAP", "n-value",
    "run", "z",
];

#[test]
fn other_names_have_no_row(rt: HostRuntime) {
    for name in NO_WORDS {
        assert!(rt; row_of(name).is_none(), "{name}");
    }
}

const CODES: &[(u16, &str)] = &[
    (codes::NOT_EQUAL, "!="),
    (codes::MINUS, "-"),
    (codes::POWER, "^"),
    (codes::ALL, "all?"),
    (codes::BF, "bf"),
    (codes::IS_LINK_SET, "is-link-set?"),
    (codes::LT, "lt"),
    (codes::MAGENTA, "magenta"),
    (codes::SELF, "self"),
    (codes::YELLOW, "yellow"),
];

/// Whether there are so many rows, and the first, the last and one between have the codes of their places.
fn are_places() -> bool {
    ROWS == 341 && codes::NOT_EQUAL == 0 && codes::ABS == 12 && codes::YELLOW == 340
}

fn has_code(name: &str, code: u16) -> bool {
    match row_of(name) {
        Some(row) => row.code == code,
        None => false,
    }
}

fn has_name(code: u16, name: &str) -> bool {
    match base_words().row(code) {
        Some(row) => row.name == name,
        None => false,
    }
}

#[test]
fn codes_are_places_and_have_names(rt: HostRuntime) {
    assert!(rt; are_places());
    for &(code, name) in CODES {
        assert!(rt; has_code(name, code), "{name}");
        assert!(rt; has_name(code, name), "{code}");
    }
    assert!(rt; base_words().row(341).is_none());
}
