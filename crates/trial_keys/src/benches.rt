//! The texts of the measure, byte by byte.

use nl_bench::texts::{experiment, model};
use std::alloc::Global;

const FOR_ONE: &str =
    "name = \"bench\"\nseed = 1\nrepetitions = 4\nsteps = 20\nmetrics = [\"count turtles\", \"count links\"]\n\n\
[world]\nmin-pxcor = -50\nmax-pxcor = 50\nmin-pycor = -50\nmax-pycor = 50\n\n[globals]\ncrowd = 20\n";

const FOR_A_THOUSAND: &str =
    "name = \"bench\"\nseed = 1000\nrepetitions = 4\nsteps = 20\nmetrics = [\"count turtles\", \"count links\"]\n\n\
[world]\nmin-pxcor = -50\nmax-pxcor = 50\nmin-pycor = -50\nmax-pycor = 50\n\n[globals]\ncrowd = 20000\n";

const MODEL: &str =
    "to setup clear-all crt crowd [ setxy random-xcor random-ycor ] reset-ticks end\nto go\n  ask turtles [ rt random 90 fd 1\n    \
if any? other turtles-here [ create-links-with other turtles-here ]\n    if count my-links > 3 [ die ] ]\n  \
ask turtles with [ count my-links = 0 and who mod 7 = 0 ] [ hatch 1 [ fd 1 ] ]\n  tick\nend\n";

fn is_experiment(alloc: Global, size: u64, wanted: &str) -> bool {
    if size > 1000 {
        return false;
    }
    match experiment(alloc, size) {
        Ok(text) => text.as_bytes() == wanted.as_bytes(),
        Err(_) => false,
    }
}

#[test]
fn the_experiment_has_the_size_as_its_seed(rt: HostRuntime) {
    assert!(rt; is_experiment(rt.alloc(), 1, FOR_ONE));
    assert!(rt; is_experiment(rt.alloc(), 1000, FOR_A_THOUSAND));
}

fn is_model(alloc: Global, size: u64, wanted: &str) -> bool {
    if size > 1000 {
        return false;
    }
    match model(alloc, size) {
        Ok(text) => text.as_bytes() == wanted.as_bytes(),
        Err(_) => false,
    }
}

#[test]
fn the_model_is_the_same_for_each_size(rt: HostRuntime) {
    assert!(rt; is_model(rt.alloc(), 1, MODEL));
    assert!(rt; is_model(rt.alloc(), 1000, MODEL));
}
