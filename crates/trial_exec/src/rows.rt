//! Texts as plain data, and what is wanted of them.

use nl_exec_acts::ErrorKind;

/// How a text ends.
#[derive(Clone, Copy, Debug)]
pub(crate) enum Ends {
    Done,
    Stopped,
    Budget,
    /// A reporter's value has this text.
    Says(&'static str),
    /// An error of this kind begins at this byte of this body: 0 is the text, and i + 1 the body of procedure i.
    Fails(ErrorKind, u32, u64),
}

/// A text of commands with its end, the units that it spends, and what lone reporters behind it end with.
#[derive(Clone, Copy, Debug)]
pub(crate) struct Row {
    pub text: &'static str,
    pub ends: Ends,
    pub spent: u64,
    pub looks: &'static [(&'static str, Ends)],
}

/// The outermost coordinates of a world, and whether it wraps on both axes.
#[derive(Clone, Copy, Debug)]
pub(crate) struct World {
    pub least: i32,
    pub greatest: i32,
    pub wraps: bool,
}

/// The world of a model that says nothing of it.
pub(crate) const WIDE: World = World {
    least: -16,
    greatest: 16,
    wraps: true,
};

pub(crate) const TORUS: World = World {
    least: -2,
    greatest: 2,
    wraps: true,
};

pub(crate) const BOX: World = World {
    least: -2,
    greatest: 2,
    wraps: false,
};

/// How a machine gets to the end of a text.
#[derive(Clone, Copy, Debug, PartialEq, Eq)]
pub(crate) enum Way {
    /// At once.
    Whole,
    /// In slices of so many units.
    Slices(u64),
    /// In slices of so many units, and behind each a copy goes on.
    Copies(u64),
}

/// At once, unit by unit, and in slices of another size.
pub(crate) const SLICES: &[Way] = &[Way::Whole, Way::Slices(1), Way::Slices(7)];

/// The same, and by copies at each unit.
pub(crate) const WAYS: &[Way] = &[Way::Whole, Way::Slices(1), Way::Slices(7), Way::Copies(1)];

/// At once, and in slices that end at other statements each time.
pub(crate) const FINE: &[Way] = &[
    Way::Whole,
    Way::Slices(1),
    Way::Slices(2),
    Way::Slices(3),
    Way::Slices(7),
];

/// At once alone.
pub(crate) const AT_ONCE: &[Way] = &[Way::Whole];
