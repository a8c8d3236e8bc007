//! A fire that goes through a forest: after the Fire model of the NetLogo Models Library.
use crate::playing::wrong_in;
use crate::rows::{Trial, WAYS};

const MODEL: &str = "globals [ initial-trees burned-trees ]
breed [fires fire]    ;; the leading edge
breed [embers ember]  ;; fading

to setup
  clear-all
  set-default-shape turtles \"square\"
  ask patches with [(random-float 100) < density]
    [ set pcolor green ]
  ask patches with [pxcor = min-pxcor]
    [ ignite ]
  set initial-trees count patches with [pcolor = green]
  reset-ticks
end

to go
  if not any? turtles
    [ stop ]
  ask fires
    [ ask neighbors4 with [pcolor = green]
        [ ignite ]
      set breed embers ]
  fade-embers
  tick
end

to ignite  ;; patch procedure
  sprout-fires 1
    [ set color red ]
  set pcolor black
  set burned-trees burned-trees + 1
end

to fade-embers
  ask embers
    [ set color color - 0.3
      if color < red - 3.5
        [ set pcolor color
          die ] ]
end
@#$#@#$#@
GRAPHICS-WINDOW
200
10
@#$#@#$#@
## WHAT IS IT?
";

const PLAN: &str = "name = \"fire\"
seed = 42
metrics = [\"burned-trees\"]

[world]
min-pxcor = -5
max-pxcor = 5
min-pycor = -5
max-pycor = 5
wrap-x = false
wrap-y = false

[[vary]]
name = \"density\"
values = [100]
";

const FIRE: &[Trial<'static>] = &[Trial {
    model: MODEL,
    plan: PLAN,
    number: 1,
    lines: "\"1\",\"100\",\"22\",\"121\",\"stop\"\n",
}];

#[test]
fn a_forest_burns_down(rt: HostRuntime) {
    let wrong = wrong_in(rt.alloc(), FIRE, WAYS);
    assert!(rt; wrong.is_none(), "{wrong:?}");
}
