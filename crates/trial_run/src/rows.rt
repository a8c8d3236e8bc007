//! Runs as plain data, and what is wanted of them.

/// A run of an experiment beside a model, and the lines that its rows are in a table.
#[derive(Clone, Copy, Debug)]
pub(crate) struct Trial<'a> {
    pub model: &'a str,
    pub plan: &'a str,
    /// The number of the run, counted from 1.
    pub number: u64,
    pub lines: &'a str,
}

/// How a run is worked on.
#[derive(Clone, Copy, Debug, PartialEq, Eq)]
pub(crate) enum Way {
    /// At once.
    Whole,
    /// In slices of so many units.
    Slices(u64),
}

/// At once, and in slices of several sizes.
pub(crate) const WAYS: &[Way] = &[
    Way::Whole,
    Way::Slices(1),
    Way::Slices(2),
    Way::Slices(3),
    Way::Slices(7),
    Way::Slices(100),
];

/// At once, and in slices of one size.
pub(crate) const FEW_WAYS: &[Way] = &[Way::Whole, Way::Slices(100)];
