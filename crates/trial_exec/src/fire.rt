//! A fire that goes through a forest: after the Fire model of the NetLogo Models Library, with a density of 100 written in.
use crate::playing::wrong_in;
use crate::rows::{Ends, Row, SLICES, World};

const MODEL: &str = "globals [ initial-trees burned-trees ]
breed [fires fire]
breed [embers ember]

to setup
  clear-all
  set-default-shape turtles \"square\"
  ask patches with [(random-float 100) < 100]
    [ set pcolor green ]
  ask patches with [pxcor = min-pxcor]
    [ ignite ]
  set initial-trees count patches with [pcolor = green]
  reset-ticks
end

to go
  if not any? turtles
    [ stop ]
  ask fires
    [ ask neighbors4 with [pcolor = green]
        [ ignite ]
      set breed embers ]
  fade-embers
  tick
end

to ignite
  sprout-fires 1
    [ set color red ]
  set pcolor black
  set burned-trees burned-trees + 1
end

to fade-embers
  ask embers
    [ set color color - 0.3
      if color < red - 3.5
        [ set pcolor color
          die ] ]
end
";

const FOREST: World = World {
    least: -5,
    greatest: 5,
    wraps: false,
};

const FIRE: &[Row] = &[
    Row {
        text: "setup",
        ends: Ends::Done,
        spent: 689,
        looks: &[
            ("count turtles", Ends::Says("11")),
            ("initial-trees", Ends::Says("110")),
        ],
    },
    Row {
        text: "setup repeat 22 [ go ]",
        ends: Ends::Done,
        spent: 7015,
        looks: &[
            ("burned-trees", Ends::Says("121")),
            ("count turtles", Ends::Says("0")),
            ("ticks", Ends::Says("22")),
        ],
    },
    Row {
        text: "setup repeat 21 [ go ]",
        ends: Ends::Done,
        spent: 6953,
        looks: &[
            ("count turtles", Ends::Says("11")),
            ("burned-trees", Ends::Says("121")),
        ],
    },
    Row {
        text: "go",
        ends: Ends::Stopped,
        spent: 3,
        looks: &[],
    },
];

#[test]
fn a_forest_burns_down(rt: HostRuntime) {
    let wrong = wrong_in(rt.alloc(), MODEL, FOREST, FIRE, SLICES);
    assert!(rt; wrong.is_none(), "{wrong:?}");
}
