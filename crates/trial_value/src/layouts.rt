//! Slots, and a layout that is made by hand.
use nl_agents_layout::layout::{BreedLayout, BreedLayouts, Layout};
use nl_agents_layout::slots::Slots;
use nl_fixed::{NoMemory, Str};
use nl_tree::What;
use nl_words::{Kinds, codes};
use std::alloc::Global;
use std::process::Abort;
use std::test::Fail;

fn slots(alloc: Global, list: &[u32]) -> Result<Slots, NoMemory> {
    Ok(Slots::of_vec(list.to_vec(alloc)?))
}

// Foxes are turtles that own the slot 15, roads are links with a direction that own 16.
fn breeds(alloc: Global) -> Result<BreedLayouts, NoMemory> {
    let mut breeds = BreedLayouts::empty(alloc);
    let foxes = BreedLayout {
        plural: Str::of(alloc, b"foxes")?,
        singular: Str::of(alloc, b"fox")?,
        link: false,
        directed: false,
        own: slots(alloc, &[15])?,
    };
    breeds.push(alloc, foxes)?;
    let roads = BreedLayout {
        plural: Str::of(alloc, b"roads")?,
        singular: Str::of(alloc, b"road")?,
        link: true,
        directed: true,
        own: slots(alloc, &[16])?,
    };
    breeds.push(alloc, roads)?;
    Ok(breeds)
}

// Two global variables, of which the code declares the second. All turtles own the slot 14, beside a few of the built-in ones.
fn layout(alloc: Global) -> Result<Layout, NoMemory> {
    Ok(Layout {
        globals: 2,
        coded: slots(alloc, &[1])?,
        slots: 17,
        every_turtle: slots(alloc, &[0, 1, 14])?,
        every_patch: slots(alloc, &[9])?,
        every_link: slots(alloc, &[0, 13])?,
        some_turtle: slots(alloc, &[0, 1, 14, 15])?,
        some_link: slots(alloc, &[0, 13, 16])?,
        breeds: breeds(alloc)?,
    })
}

/// Asks for the slots 0, 2, 14 and 16.
fn assert_slots(rt: &impl Abort, list: &Slots) {
    assert!(rt; list.as_slice() == [0, 2, 14, 16].as_slice());
    assert!(rt; list.len() == 4);
    assert!(rt; list.contains(14));
    assert!(rt; !list.contains(15));
    assert!(rt; list.place(14) == Some(2));
    assert!(rt; list.place(15).is_none());
}

fn assert_copied_slots(rt: &impl Abort, alloc: Global, list: &Slots) -> Result<(), NoMemory> {
    let again = list.copy(alloc)?;
    assert_slots(rt, &again);
    Ok(())
}

#[test]
fn slots_ascend_and_are_found(rt: HostRuntime) -> Result<(), Fail> {
    assert!(rt; Slots::empty(rt.alloc()).len() == 0);
    let kept = slots(rt.alloc(), &[16, 0, 14, 16, 2])?;
    assert_slots(&rt, &kept);
    assert_copied_slots(&rt, rt.alloc(), &kept)?;
    Ok(())
}

const WORDS: &[(What, Option<u32>)] = &[
    (What::Base(codes::COLOR), Some(0)),
    (What::Base(codes::HEADING), Some(1)),
    (What::Base(codes::TIE_MODE), Some(13)),
    (What::Base(codes::XCOR), None),
    (What::Base(codes::WHO), None),
    (What::Global(1), Some(1)),
    (What::Global(2), None),
    (What::Own(0), Some(14)),
    (What::Own(2), Some(16)),
    (What::Own(3), None),
    (What::Own(4_294_967_295), None),
    (What::Made(1, codes::TURTLES), None),
    (What::Procedure(0), None),
];

fn assert_slots_of_words(rt: &impl Abort, layout: &Layout) {
    for &(what, slot) in WORDS {
        assert!(rt; layout.slot(what) == slot, "the slot of {what:?}");
    }
}

#[test]
fn words_have_slots(rt: HostRuntime) -> Result<(), Fail> {
    let layout = layout(rt.alloc())?;
    assert_slots_of_words(&rt, &layout);
    Ok(())
}

// Whether turtles of no breed, foxes, links of no breed and roads own the variable of a slot.
fn own(layout: &Layout, slot: u32) -> [bool; 4] {
    [
        layout.turtle_owns(0, slot),
        layout.turtle_owns(1, slot),
        layout.link_owns(0, slot),
        layout.link_owns(2, slot),
    ]
}

// A slot, and whether each of these owns it.
const OWN: &[(u32, [bool; 4])] = &[
    (13, [false, false, true, true]),
    (14, [true, true, false, false]),
    (15, [false, true, false, false]),
    (16, [false, false, false, true]),
];

fn assert_own(rt: &impl Abort, layout: &Layout) {
    for &(slot, owned) in OWN {
        assert!(rt; own(layout, slot) == owned, "who owns {slot}");
    }
    assert!(rt; layout.is_coded(1));
    assert!(rt; !layout.is_coded(0));
}

fn assert_copied_own(rt: &impl Abort, alloc: Global, layout: &Layout) -> Result<(), NoMemory> {
    let again = layout.copy(alloc)?;
    assert_own(rt, &again);
    Ok(())
}

#[test]
fn breeds_own_what_is_theirs(rt: HostRuntime) -> Result<(), Fail> {
    let made = layout(rt.alloc())?;
    assert_own(&rt, &made);
    assert_copied_own(&rt, rt.alloc(), &made)?;
    Ok(())
}

// The number, and whether it is that of a breed of turtles, or of links.
const BREEDS: &[(u32, bool, bool)] = &[
    (0, true, true),
    (1, true, false),
    (2, false, true),
    (3, false, false),
];

fn is_called(layout: &Layout, breed: u32, singular: &[u8]) -> bool {
    match layout.breed(breed) {
        Some(found) => found.singular.as_bytes() == singular,
        None => false,
    }
}

fn assert_breeds(rt: &impl Abort, layout: &Layout) {
    assert!(rt; layout.breeds_count() == 3);
    assert!(rt; is_called(layout, 2, b"road"));
    assert!(rt; layout.breed(0).is_none());
    assert!(rt; layout.breed(3).is_none());
    for &(breed, of_turtles, of_links) in BREEDS {
        assert!(rt;
            layout.is_turtle_breed(breed) == of_turtles,
            "turtles of {breed}"
        );
        assert!(rt; layout.is_link_breed(breed) == of_links, "links of {breed}");
    }
}

#[test]
fn breeds_have_numbers(rt: HostRuntime) -> Result<(), Fail> {
    let layout = layout(rt.alloc())?;
    assert_breeds(&rt, &layout);
    Ok(())
}

const OWNERS: &[(u32, bool, bool, bool)] = &[
    (0, true, false, true),
    (9, false, true, false),
    (15, true, false, false),
    (16, false, false, true),
    (2, false, false, false),
];

fn assert_owners(rt: &impl Abort, layout: &Layout) {
    for &(slot, turtle, patch, link) in OWNERS {
        let owners = Kinds {
            observer: false,
            turtle,
            patch,
            link,
        };
        assert!(rt; layout.owners(slot) == owners, "the owners of {slot}");
    }
}

#[test]
fn slots_have_owners(rt: HostRuntime) -> Result<(), Fail> {
    let layout = layout(rt.alloc())?;
    assert_owners(&rt, &layout);
    Ok(())
}
