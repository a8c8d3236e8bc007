//! Locals and frames that are held, found again and copied.
#![tactic(auto)]

use nl_exec_meaning::frames::{Frame, copy_frames};
use nl_exec_meaning::locals::{Local, Locals};
use nl_fixed::NoMemory;
use nl_value::{Items, Value};
use std::alloc::Global;

/// Whether an answer came, and is yes.
fn holds(answer: Result<bool, NoMemory>) -> bool {
    match answer {
        Ok(is) => is,
        Err(_) => false,
    }
}

/// So many locals, whose names have the numbers from 0 to 9 by turns, and whose values are turtles counted from 0.
fn many(alloc: Global, count: u32) -> Result<Locals, NoMemory> {
    let mut locals = Locals::empty(alloc);
    for at in 0..count {
        locals.push(
            alloc,
            Local {
                id: at % 10,
                value: Value::Turtle(u64::from(at)),
            },
        )?;
    }
    Ok(locals)
}

/// Whether the newest local of a number stands at this place, and its value is this turtle.
fn is_newest(locals: &Locals, id: u32, place: usize, turtle: u64) -> bool {
    match locals.find(id) {
        Some(at) => at == place && is_turtle(locals.value(at), turtle),
        None => false,
    }
}

fn is_turtle(value: Option<&Value>, turtle: u64) -> bool {
    match value {
        Some(Value::Turtle(serial)) => *serial == turtle,
        _ => false,
    }
}

fn newest_are_found(alloc: Global) -> Result<bool, NoMemory> {
    let locals = many(alloc, 27)?;
    Ok(is_newest(&locals, 6, 26, 26) && is_newest(&locals, 7, 17, 17) && locals.find(10).is_none())
}

#[test]
fn the_newest_local_of_a_name_is_found(rt: HostRuntime) {
    assert!(rt; holds(newest_are_found(rt.alloc())));
}

fn older_ones_come_back(alloc: Global) -> Result<bool, NoMemory> {
    let mut locals = many(alloc, 27)?;
    locals.truncate(20);
    Ok(is_newest(&locals, 6, 16, 16) && locals.len() == 20)
}

#[test]
fn an_older_local_comes_back_where_newer_ones_are_forgotten(rt: HostRuntime) {
    assert!(rt; holds(older_ones_come_back(rt.alloc())));
}

fn many_are_copied(alloc: Global) -> Result<bool, NoMemory> {
    let locals = many(alloc, 100_000)?;
    let again = locals.copy(alloc)?;
    Ok(again.len() == 100_000 && is_newest(&again, 9, 99_999, 99_999))
}

#[test]
fn a_hundred_thousand_locals_are_copied(rt: HostRuntime) {
    assert!(rt; holds(many_are_copied(rt.alloc())));
}

/// So many frames that each hold a value.
fn parts(alloc: Global, count: u32) -> Result<Vec<Frame>, NoMemory> {
    let mut frames = Vec::new(alloc);
    for node in 0..count {
        let mut made = Items::empty(alloc);
        made.push(alloc, Value::Patch(node))?;
        frames.push(Frame::Part { node, at: 1, made })?;
    }
    Ok(frames)
}

/// Whether the frame is of this node, and holds one value.
fn is_part(frame: Option<&Frame>, wanted: u32) -> bool {
    match frame {
        Some(Frame::Part { node, at, made }) => *node == wanted && *at == 1 && made.len() == 1,
        _ => false,
    }
}

fn frames_are_copied(alloc: Global) -> Result<bool, NoMemory> {
    let frames = parts(alloc, 10_000)?;
    let again = copy_frames(alloc, &frames)?;
    Ok(again.len() == 10_000 && is_part(again.get(0), 0) && is_part(again.get(9_999), 9_999))
}

#[test]
fn ten_thousand_frames_are_copied(rt: HostRuntime) {
    assert!(rt; holds(frames_are_copied(rt.alloc())));
}
