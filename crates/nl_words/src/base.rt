//! The table of built-in words.
//!
//! The words, their inputs and who may run them are those of the NetLogo Dictionary, as far as this profile has them. The levels of
//! operators and what a row tells of the agents in an answer are this project's own choice.
ghost use Rattle.std.specs.Prelude.{◌≡◌, IsTrue};
ghost use Rattle.std.specs.List.{list_all};
ghost use Rattle.nl_words.specs.Rows.{rows};
ghost use Rattle.nl_words.specs.Table.{is_table, is_fitting};

use crate::codes;
use crate::entry::{Entry, Input, Kinds, Leaving, Manner, Role, Runner, Turns};
use crate::words::Words;

/// How many rows the table has. The last word is `yellow`.
pub const ROWS: usize = codes::YELLOW as usize + 1;

// Whether the first kind is among the others.
macro_rules! among {
    (observer: observer $($more:ident)*) => { true };
    (turtle: turtle $($more:ident)*) => { true };
    (patch: patch $($more:ident)*) => { true };
    (link: link $($more:ident)*) => { true };
    ($kind:ident: $other:ident $($more:ident)*) => { among!($kind: $($more)*) };
    ($kind:ident:) => { false };
}

// The kinds that are listed.
macro_rules! kinds {
    ($($kind:ident)*) => {
        Kinds {
            observer: among!(observer: $($kind)*),
            turtle: among!(turtle: $($kind)*),
            patch: among!(patch: $($kind)*),
            link: among!(link: $($kind)*),
        }
    };
}

// The kinds that are listed, or all where none is.
macro_rules! runners {
    () => { kinds!(observer turtle patch link) };
    ($($kind:ident)+) => { kinds!($($kind)+) };
}

// The inputs that are listed, without the star that may follow them.
macro_rules! inputs {
    ($($input:ident)*) => { &[$(Input::$input),*] };
    ($($input:ident)* *) => { &[$(Input::$input),*] };
}

// Whether a star follows the inputs.
macro_rules! many {
    ($($input:ident)*) => { false };
    ($($input:ident)* *) => { true };
}

// Who runs the blocks, or that there are none.
macro_rules! blocks {
    () => { Runner::NoBlock };
    ($runner:ident) => { Runner::$runner };
}

// How many values a turn of the word has, or that it has no turns.
macro_rules! turns {
    () => { Turns::NoTurn };
    ($turns:ident) => { Turns::$turns };
}

// How the variable that the word names stands there.
macro_rules! manner {
    () => { Manner::Run };
    ($manner:ident) => { Manner::$manner };
}

// Whether the row is marked as that of a variable that no text sets.
macro_rules! fixed {
    () => { false };
    (fixed) => { true };
}

// Whether and how the word leaves a procedure.
macro_rules! leaving {
    () => { Leaving::Stays };
    ($leaving:ident) => { Leaving::$leaving };
}

// A row: the constant of its code, its name, its role, its inputs, and then what isn't so for most words: who may run it, where not everyone
// may; what its answer may hold, where that is known; who runs its blocks; how many values a turn of its arrow block has; what it does with the
// variable that it names; that no text sets it; how it leaves a procedure. A star after the inputs says that there may be more with
// parentheses round the whole.
macro_rules! table {
    ($($code:ident $name:literal $role:ident $(($level:literal))? [$($inputs:tt)*]
        $(by($($kind:ident)+))? $(gives($($given:ident)+))? $(blocks($runner:ident))? $(turns($turns:ident))? $(variable($manner:ident))?
        $(is($mark:ident))? $(leaves($leaving:ident))?;)*) => {
        [$(Entry {
            name: $name,
            role: Role::$role $(($level))?,
            inputs: inputs!($($inputs)*),
            many: many!($($inputs)*),
            runs: runners!($($($kind)+)?),
            gives: kinds!($($($given)+)?),
            blocks: blocks!($($runner)?),
            turns: turns!($($turns)?),
            manner: manner!($($manner)?),
            fixed: fixed!($($mark)?),
            leaving: leaving!($($leaving)?),
            code: codes::$code,
        }),*]
    };
}

/// The table of built-in words, in the order of their bytes. It takes no time: the rows stand in the program.
pub fn base_words() -> Words<ROWS>
    ensures rows { result ≡ rows }
    ensures table { IsTrue (is_table result) }
    ensures fitting { IsTrue (list_all is_fitting result) }
{
    static TABLE: [Entry; ROWS] = table![
        NOT_EQUAL "!=" Operator(8) [Value Value];
        TIMES "*" Operator(5) [Value Value];
        PLUS "+" Operator(6) [Value Value];
        MINUS "-" Operator(6) [Value Value];
        ARROW "->" Reserved [];
        DIVIDED "/" Operator(5) [Value Value];
        LESS "<" Operator(7) [Value Value];
        LESS_EQUAL "<=" Operator(7) [Value Value];
        EQUAL "=" Operator(8) [Value Value];
        GREATER ">" Operator(7) [Value Value];
        GREATER_EQUAL ">=" Operator(7) [Value Value];
        POWER "^" Operator(4) [Value Value];

        ABS "abs" Reporter [Value];
        ALL "all?" Reporter [Value Reporter] blocks(Given);
        AND "and" Operator(9) [Value Value];
        ANY "any?" Reporter [Value];
        ASK "ask" Command [Value Commands] blocks(Given);
        AT_POINTS "at-points" Operator(1) [Value Value] by(observer turtle patch) gives(turtle patch link);
        ATAN "atan" Reporter [Value Value];
        AUTO_PLOT_OFF "auto-plot-off" Command [];
        AUTO_PLOT_ON "auto-plot-on" Command [];

        BACK "back" Command [Value] by(turtle);
        BASE_COLORS "base-colors" Reporter [];
        BEHAVIORSPACE_EXPERIMENT_NAME "behaviorspace-experiment-name" Reporter [];
        BEHAVIORSPACE_RUN_NUMBER "behaviorspace-run-number" Reporter [];
        BF "bf" Reporter [Value];
        BK "bk" Command [Value] by(turtle);
        BL "bl" Reporter [Value];
        BLACK "black" Constant [];
        BLUE "blue" Constant [];
        BOTH_ENDS "both-ends" Reporter [] by(link) gives(turtle);
        BREED "breed" Variable [] by(turtle link);
        BROWN "brown" Constant [];
        BUT_FIRST "but-first" Reporter [Value];
        BUT_LAST "but-last" Reporter [Value];
        BUTFIRST "butfirst" Reporter [Value];
        BUTLAST "butlast" Reporter [Value];

        CA "ca" Command [] by(observer);
        CAN_MOVE "can-move?" Reporter [Value] by(turtle);
        CD "cd" Command [] by(observer);
        CEILING "ceiling" Reporter [Value];
        CLEAR_ALL "clear-all" Command [] by(observer);
        CLEAR_ALL_PLOTS "clear-all-plots" Command [];
        CLEAR_DRAWING "clear-drawing" Command [] by(observer);
        CLEAR_GLOBALS "clear-globals" Command [] by(observer);
        CLEAR_LINKS "clear-links" Command [] by(observer);
        CLEAR_OUTPUT "clear-output" Command [];
        CLEAR_PATCHES "clear-patches" Command [] by(observer);
        CLEAR_PLOT "clear-plot" Command [];
        CLEAR_TICKS "clear-ticks" Command [] by(observer);
        CLEAR_TURTLES "clear-turtles" Command [] by(observer);
        COLOR "color" Variable [] by(turtle link);
        COS "cos" Reporter [Value];
        COUNT "count" Reporter [Value];
        CP "cp" Command [] by(observer);
        CREATE_LINK_FROM "create-link-from" Command [Value MaybeCommands] by(turtle) blocks(Links);
        CREATE_LINK_TO "create-link-to" Command [Value MaybeCommands] by(turtle) blocks(Links);
        CREATE_LINK_WITH "create-link-with" Command [Value MaybeCommands] by(turtle) blocks(Links);
        CREATE_LINKS_FROM "create-links-from" Command [Value MaybeCommands] by(turtle) blocks(Links);
        CREATE_LINKS_TO "create-links-to" Command [Value MaybeCommands] by(turtle) blocks(Links);
        CREATE_LINKS_WITH "create-links-with" Command [Value MaybeCommands] by(turtle) blocks(Links);
        CREATE_ORDERED_TURTLES "create-ordered-turtles" Command [Value MaybeCommands] by(observer) blocks(Turtles);
        CREATE_TEMPORARY_PLOT_PEN "create-temporary-plot-pen" Command [Value];
        CREATE_TURTLES "create-turtles" Command [Value MaybeCommands] by(observer) blocks(Turtles);
        CRO "cro" Command [Value MaybeCommands] by(observer) blocks(Turtles);
        CRT "crt" Command [Value MaybeCommands] by(observer) blocks(Turtles);
        CT "ct" Command [] by(observer);
        CYAN "cyan" Constant [];

        DIE "die" Command [] by(turtle link);
        DIFFUSE "diffuse" Command [Variable Value] by(observer) variable(Spread);
        DIFFUSE4 "diffuse4" Command [Variable Value] by(observer) variable(Spread);
        DIRECTED_LINK_BREED "directed-link-breed" Reserved [];
        DISPLAY "display" Command [];
        DISTANCE "distance" Reporter [Value] by(turtle patch);
        DISTANCEXY "distancexy" Reporter [Value Value] by(turtle patch);
        DOWNHILL "downhill" Command [Variable] by(turtle) variable(Spread);
        DOWNHILL4 "downhill4" Command [Variable] by(turtle) variable(Spread);
        DX "dx" Reporter [] by(turtle);
        DY "dy" Reporter [] by(turtle);

        E "e" Reporter [];
        EMPTY "empty?" Reporter [Value];
        END "end" Reserved [];
        END1 "end1" Variable [] by(link) is(fixed);
        END2 "end2" Variable [] by(link) is(fixed);

        FACE "face" Command [Value] by(turtle);
        FACEXY "facexy" Command [Value Value] by(turtle);
        FALSE "false" Constant [];
        FD "fd" Command [Value] by(turtle);
        FILTER "filter" Reporter [ArrowReporter Value] blocks(Same) turns(OneValue);
        FIRST "first" Reporter [Value];
        FLOOR "floor" Reporter [Value];
        FOLLOW "follow" Command [Value] by(observer);
        FOLLOW_ME "follow-me" Command [] by(turtle);
        FOREACH "foreach" Command [Value ArrowCommands *] blocks(Same) turns(ValueOfEachList);
        FORWARD "forward" Command [Value] by(turtle);
        FPUT "fput" Reporter [Value Value];

        GLOBALS "globals" Reserved [];
        GRAY "gray" Constant [];
        GREEN "green" Constant [];
        GREY "grey" Constant [];

        HATCH "hatch" Command [Value MaybeCommands] by(turtle) blocks(Turtles);
        HEADING "heading" Variable [] by(turtle);
        HIDDEN "hidden?" Variable [] by(turtle link);
        HIDE_LINK "hide-link" Command [] by(link);
        HIDE_TURTLE "hide-turtle" Command [] by(turtle);
        HISTOGRAM "histogram" Command [Value];
        HOME "home" Command [] by(turtle);
        HT "ht" Command [] by(turtle);

        IF "if" Command [Value Commands] blocks(Same);
        IFELSE "ifelse" Command [Value Commands Commands] blocks(Same);
        IFELSE_VALUE "ifelse-value" Reporter [Expression Reporter Reporter] blocks(Same);
        IN_CONE "in-cone" Operator(1) [Value Value Value] by(turtle) gives(turtle patch link);
        IN_LINK_FROM "in-link-from" Reporter [Value] by(turtle) gives(link);
        IN_LINK_NEIGHBOR "in-link-neighbor?" Reporter [Value] by(turtle);
        IN_LINK_NEIGHBORS "in-link-neighbors" Reporter [] by(turtle) gives(turtle);
        IN_RADIUS "in-radius" Operator(1) [Value Value] by(turtle patch) gives(turtle patch link);
        INSERT_ITEM "insert-item" Reporter [Value Value Value];
        INT "int" Reporter [Value];
        IS_AGENT "is-agent?" Reporter [Value];
        IS_AGENTSET "is-agentset?" Reporter [Value];
        IS_BOOLEAN "is-boolean?" Reporter [Value];
        IS_DIRECTED_LINK "is-directed-link?" Reporter [Value];
        IS_LINK_SET "is-link-set?" Reporter [Value];
        IS_LINK "is-link?" Reporter [Value];
        IS_LIST "is-list?" Reporter [Value];
        IS_NUMBER "is-number?" Reporter [Value];
        IS_PATCH_SET "is-patch-set?" Reporter [Value];
        IS_PATCH "is-patch?" Reporter [Value];
        IS_STRING "is-string?" Reporter [Value];
        IS_TURTLE_SET "is-turtle-set?" Reporter [Value];
        IS_TURTLE "is-turtle?" Reporter [Value];
        IS_UNDIRECTED_LINK "is-undirected-link?" Reporter [Value];
        ITEM "item" Reporter [Value Value];

        JUMP "jump" Command [Value] by(turtle);

        LABEL "label" Variable [] by(turtle link);
        LABEL_COLOR "label-color" Variable [] by(turtle link);
        LAST "last" Reporter [Value];
        LEFT "left" Command [Value] by(turtle);
        LENGTH "length" Reporter [Value];
        LET "let" Command [Fresh Value];
        LIME "lime" Constant [];
        LINK "link" Reporter [Value Value] gives(link);
        LINK_HEADING "link-heading" Reporter [] by(link);
        LINK_LENGTH "link-length" Reporter [] by(link);
        LINK_NEIGHBOR "link-neighbor?" Reporter [Value] by(turtle);
        LINK_NEIGHBORS "link-neighbors" Reporter [] by(turtle) gives(turtle);
        LINK_SET "link-set" Reporter [Value *] gives(link);
        LINK_WITH "link-with" Reporter [Value] by(turtle) gives(link);
        LINKS "links" Reporter [] gives(link);
        LINKS_OWN "links-own" Reserved [];
        LIST "list" Reporter [Value Value *];
        LOOP "loop" Command [Commands] blocks(Same);
        LPUT "lput" Reporter [Value Value];
        LT "lt" Command [Value] by(turtle);

        MAGENTA "magenta" Constant [];
        MAP "map" Reporter [ArrowReporter Value *] blocks(Same) turns(ValueOfEachList);
        MAX "max" Reporter [Value];
        MAX_N_OF "max-n-of" Reporter [Value Value Reporter] gives(turtle patch link) blocks(Given);
        MAX_ONE_OF "max-one-of" Reporter [Value Reporter] gives(turtle patch link) blocks(Given);
        MAX_PXCOR "max-pxcor" Reporter [];
        MAX_PYCOR "max-pycor" Reporter [];
        MEAN "mean" Reporter [Value];
        MEDIAN "median" Reporter [Value];
        MEMBER "member?" Reporter [Value Value];
        MIN "min" Reporter [Value];
        MIN_N_OF "min-n-of" Reporter [Value Value Reporter] gives(turtle patch link) blocks(Given);
        MIN_ONE_OF "min-one-of" Reporter [Value Reporter] gives(turtle patch link) blocks(Given);
        MIN_PXCOR "min-pxcor" Reporter [];
        MIN_PYCOR "min-pycor" Reporter [];
        MOD "mod" Operator(5) [Value Value];
        MODES "modes" Reporter [Value];
        MOVE_TO "move-to" Command [Value] by(turtle);
        MY_IN_LINKS "my-in-links" Reporter [] by(turtle) gives(link);
        MY_LINKS "my-links" Reporter [] by(turtle) gives(link);
        MY_OUT_LINKS "my-out-links" Reporter [] by(turtle) gives(link);
        MYSELF "myself" Reporter [] by(turtle patch link);

        N_OF "n-of" Reporter [Value Value] gives(turtle patch link);
        N_VALUES "n-values" Reporter [Value ArrowReporter] blocks(Same) turns(OneValue);
        NEIGHBORS "neighbors" Reporter [] by(turtle patch) gives(patch);
        NEIGHBORS4 "neighbors4" Reporter [] by(turtle patch) gives(patch);
        NO_DISPLAY "no-display" Command [];
        NO_LINKS "no-links" Reporter [] gives(link);
        NO_PATCHES "no-patches" Reporter [] gives(patch);
        NO_TURTLES "no-turtles" Reporter [] gives(turtle);
        NOBODY "nobody" Constant [];
        NOT "not" Reporter [Value];

        OF "of" Operator(2) [Reporter Value] blocks(Given);
        ONE_OF "one-of" Reporter [Value] gives(turtle patch link);
        OR "or" Operator(9) [Value Value];
        ORANGE "orange" Constant [];
        OTHER "other" Reporter [Value] by(turtle patch link) gives(turtle patch link);
        OTHER_END "other-end" Reporter [] by(turtle link) gives(turtle);
        OUT_LINK_NEIGHBOR "out-link-neighbor?" Reporter [Value] by(turtle);
        OUT_LINK_NEIGHBORS "out-link-neighbors" Reporter [] by(turtle) gives(turtle);
        OUT_LINK_TO "out-link-to" Reporter [Value] by(turtle) gives(link);
        OUTPUT_PRINT "output-print" Command [Value];
        OUTPUT_SHOW "output-show" Command [Value];
        OUTPUT_TYPE "output-type" Command [Value];
        OUTPUT_WRITE "output-write" Command [Value];

        PATCH "patch" Reporter [Value Value] gives(patch);
        PATCH_AHEAD "patch-ahead" Reporter [Value] by(turtle) gives(patch);
        PATCH_AT "patch-at" Reporter [Value Value] by(turtle patch) gives(patch);
        PATCH_AT_HEADING_AND_DISTANCE "patch-at-heading-and-distance" Reporter [Value Value] by(turtle patch) gives(patch);
        PATCH_HERE "patch-here" Reporter [] by(turtle) gives(patch);
        PATCH_LEFT_AND_AHEAD "patch-left-and-ahead" Reporter [Value Value] by(turtle) gives(patch);
        PATCH_RIGHT_AND_AHEAD "patch-right-and-ahead" Reporter [Value Value] by(turtle) gives(patch);
        PATCH_SET "patch-set" Reporter [Value *] gives(patch);
        PATCHES "patches" Reporter [] gives(patch);
        PATCHES_OWN "patches-own" Reserved [];
        PCOLOR "pcolor" Variable [] by(turtle patch);
        PD "pd" Command [] by(turtle);
        PE "pe" Command [] by(turtle);
        PEN_DOWN "pen-down" Command [] by(turtle);
        PEN_ERASE "pen-erase" Command [] by(turtle);
        PEN_MODE "pen-mode" Variable [] by(turtle);
        PEN_SIZE "pen-size" Variable [] by(turtle);
        PEN_UP "pen-up" Command [] by(turtle);
        PI "pi" Reporter [];
        PINK "pink" Constant [];
        PLABEL "plabel" Variable [] by(turtle patch);
        PLABEL_COLOR "plabel-color" Variable [] by(turtle patch);
        PLOT "plot" Command [Value];
        PLOT_PEN_DOWN "plot-pen-down" Command [];
        PLOT_PEN_RESET "plot-pen-reset" Command [];
        PLOT_PEN_UP "plot-pen-up" Command [];
        PLOTXY "plotxy" Command [Value Value];
        POSITION "position" Reporter [Value Value];
        PRECISION "precision" Reporter [Value Value];
        PRINT "print" Command [Value];
        PU "pu" Command [] by(turtle);
        PXCOR "pxcor" Variable [] by(turtle patch) is(fixed);
        PYCOR "pycor" Variable [] by(turtle patch) is(fixed);

        RANDOM "random" Reporter [Value];
        RANDOM_FLOAT "random-float" Reporter [Value];
        RANDOM_PXCOR "random-pxcor" Reporter [];
        RANDOM_PYCOR "random-pycor" Reporter [];
        RANDOM_SEED "random-seed" Command [Value];
        RANDOM_XCOR "random-xcor" Reporter [];
        RANDOM_YCOR "random-ycor" Reporter [];
        RANGE "range" Reporter [Value *];
        RED "red" Constant [];
        REDUCE "reduce" Reporter [ArrowReporter Value] blocks(Same) turns(TwoValues);
        REMAINDER "remainder" Reporter [Value Value];
        REMOVE "remove" Reporter [Value Value];
        REMOVE_DUPLICATES "remove-duplicates" Reporter [Value];
        REMOVE_ITEM "remove-item" Reporter [Value Value];
        REPEAT "repeat" Command [Value Commands] blocks(Same);
        REPLACE_ITEM "replace-item" Reporter [Value Value Value];
        REPORT "report" Command [Value] leaves(Reports);
        RESET_PERSPECTIVE "reset-perspective" Command [];
        RESET_TICKS "reset-ticks" Command [] by(observer);
        REVERSE "reverse" Reporter [Value];
        RIDE "ride" Command [Value] by(observer);
        RIDE_ME "ride-me" Command [] by(turtle);
        RIGHT "right" Command [Value] by(turtle);
        ROUND "round" Reporter [Value];
        RP "rp" Command [];
        RT "rt" Command [Value] by(turtle);

        SCALE_COLOR "scale-color" Reporter [Value Value Value Value];
        SE "se" Reporter [Value Value *];
        SELF "self" Reporter [] by(turtle patch link);
        SENTENCE "sentence" Reporter [Value Value *];
        SET "set" Command [Variable Value] variable(Set);
        SET_CURRENT_PLOT "set-current-plot" Command [Value];
        SET_CURRENT_PLOT_PEN "set-current-plot-pen" Command [Value];
        SET_DEFAULT_SHAPE "set-default-shape" Command [Value Value];
        SET_PLOT_PEN_COLOR "set-plot-pen-color" Command [Value];
        SET_PLOT_PEN_INTERVAL "set-plot-pen-interval" Command [Value];
        SET_PLOT_PEN_MODE "set-plot-pen-mode" Command [Value];
        SET_PLOT_X_RANGE "set-plot-x-range" Command [Value Value];
        SET_PLOT_Y_RANGE "set-plot-y-range" Command [Value Value];
        SETUP_PLOTS "setup-plots" Command [];
        SETXY "setxy" Command [Value Value] by(turtle);
        SHADE_OF "shade-of?" Reporter [Value Value];
        SHAPE "shape" Variable [] by(turtle link);
        SHOW "show" Command [Value];
        SHOW_LINK "show-link" Command [] by(link);
        SHOW_TURTLE "show-turtle" Command [] by(turtle);
        SHUFFLE "shuffle" Reporter [Value];
        SIN "sin" Reporter [Value];
        SIZE "size" Variable [] by(turtle);
        SKY "sky" Constant [];
        SORT "sort" Reporter [Value];
        SORT_BY "sort-by" Reporter [ArrowReporter Value] blocks(Same) turns(TwoValues);
        SORT_ON "sort-on" Reporter [Reporter Value] blocks(Given);
        SPROUT "sprout" Command [Value MaybeCommands] by(patch) blocks(Turtles);
        SQRT "sqrt" Reporter [Value];
        ST "st" Command [] by(turtle);
        STAMP "stamp" Command [] by(turtle link);
        STAMP_ERASE "stamp-erase" Command [] by(turtle link);
        STANDARD_DEVIATION "standard-deviation" Reporter [Value];
        STOP "stop" Command [] leaves(Stops);
        SUBLIST "sublist" Reporter [Value Value Value];
        SUBSTRING "substring" Reporter [Value Value Value];
        SUBTRACT_HEADINGS "subtract-headings" Reporter [Value Value];
        SUM "sum" Reporter [Value];

        TAN "tan" Reporter [Value];
        THICKNESS "thickness" Variable [] by(link);
        TICK "tick" Command [] by(observer);
        TICK_ADVANCE "tick-advance" Command [Value] by(observer);
        TICKS "ticks" Reporter [];
        TIE_MODE "tie-mode" Variable [] by(link);
        TO "to" Reserved [];
        TO_REPORT "to-report" Reserved [];
        TOWARDS "towards" Reporter [Value] by(turtle patch);
        TOWARDSXY "towardsxy" Reporter [Value Value] by(turtle patch);
        TRUE "true" Constant [];
        TURQUOISE "turquoise" Constant [];
        TURTLE "turtle" Reporter [Value] gives(turtle);
        TURTLE_SET "turtle-set" Reporter [Value *] gives(turtle);
        TURTLES "turtles" Reporter [] gives(turtle);
        TURTLES_AT "turtles-at" Reporter [Value Value] by(turtle patch) gives(turtle);
        TURTLES_HERE "turtles-here" Reporter [] by(turtle patch) gives(turtle);
        TURTLES_ON "turtles-on" Reporter [Value] gives(turtle);
        TURTLES_OWN "turtles-own" Reserved [];
        TYPE "type" Command [Value];

        UNDIRECTED_LINK_BREED "undirected-link-breed" Reserved [];
        UP_TO_N_OF "up-to-n-of" Reporter [Value Value] gives(turtle patch link);
        UPDATE_PLOTS "update-plots" Command [];
        UPHILL "uphill" Command [Variable] by(turtle) variable(Spread);
        UPHILL4 "uphill4" Command [Variable] by(turtle) variable(Spread);

        VARIANCE "variance" Reporter [Value];
        VIOLET "violet" Constant [];

        WAIT "wait" Command [Value];
        WATCH "watch" Command [Value] by(observer);
        WATCH_ME "watch-me" Command [] by(turtle patch link);
        WHILE "while" Command [Reporter Commands] blocks(Same);
        WHITE "white" Constant [];
        WHO "who" Variable [] by(turtle) is(fixed);
        WITH "with" Operator(1) [Value Reporter] gives(turtle patch link) blocks(Given);
        WITH_MAX "with-max" Operator(1) [Value Reporter] gives(turtle patch link) blocks(Given);
        WITH_MIN "with-min" Operator(1) [Value Reporter] gives(turtle patch link) blocks(Given);
        WORD "word" Reporter [Value Value *];
        WORLD_HEIGHT "world-height" Reporter [];
        WORLD_WIDTH "world-width" Reporter [];
        WRAP_COLOR "wrap-color" Reporter [Value];
        WRITE "write" Command [Value];

        XCOR "xcor" Variable [] by(turtle);
        XOR "xor" Operator(9) [Value Value];

        YCOR "ycor" Variable [] by(turtle);
        YELLOW "yellow" Constant [];
    ];
    Words { rows: &TABLE }
}
