//! Which query a code is.
//!
//! Queries that take the same inputs in the same way are together in one enum. A word that a breed makes has the code of the word without
//! the breed.
ghost use Rattle.std.specs.Prelude.{◌≡◌};
ghost use Rattle.nl_agentset_query.specs.Words.{set_word, choice_word, place_word, measure_word, link_word, query_word};

use nl_value::AgentKind;
use nl_words::codes;

/// Sets without inputs.
#[derive(Clone, Copy)]
pub enum Whole {
    Turtles,
    Patches,
    Links,
    NoTurtles,
    NoPatches,
    NoLinks,
}

/// Agents by numbers: a turtle by what it is called, a patch by its coordinates, a link by what its ends are called.
#[derive(Clone, Copy)]
pub enum LookUp {
    Turtle,
    Patch,
    Link,
}

/// Tests of a turtle's or a link's breed.
#[derive(Clone, Copy)]
pub enum OfBreed {
    Turtle,
    Link,
}

/// Words of a set alone.
#[derive(Clone, Copy)]
pub enum OfSet {
    Other,
    Count,
    Any,
}

/// Words that draw.
#[derive(Clone, Copy)]
pub enum Choice {
    OneOf,
    NOf,
    UpToNOf,
}

/// Agents by where they stand.
#[derive(Clone, Copy)]
pub enum Standing {
    On,
    Here,
    At,
    AtPoints,
    InRadius,
    InCone,
}

/// The patches around the caller.
#[derive(Clone, Copy)]
pub enum Around {
    Neighbors,
    Neighbors4,
}

/// One patch, by its way from the caller.
#[derive(Clone, Copy)]
pub enum PatchBy {
    Here,
    At,
    Ahead,
    LeftAndAhead,
    RightAndAhead,
    HeadingAndDistance,
}

/// What a turtle's heading gives.
#[derive(Clone, Copy)]
pub enum Facing {
    CanMove,
    Dx,
    Dy,
}

/// How far away and in which direction something is.
#[derive(Clone, Copy)]
pub enum Measure {
    Distance,
    Towards,
}

/// What the ends of a link give.
#[derive(Clone, Copy)]
pub enum OfEnds {
    Both,
    Length,
    Heading,
}

/// Which links of a turtle: all, those that lead to it and those without a direction, or those that lead from it and the same.
#[derive(Clone, Copy)]
pub enum Side {
    Any,
    In,
    Out,
}

/// A query.
#[derive(Clone, Copy)]
pub enum QueryWord {
    Whole(Whole),
    LookUp(LookUp),
    OfBreed(OfBreed),
    OfSet(OfSet),
    Union(AgentKind),
    Choice(Choice),
    Standing(Standing),
    Around(Around),
    PatchBy(PatchBy),
    Facing(Facing),
    Measure(Measure),
    MeasureXy(Measure),
    OfEnds(OfEnds),
    MyLinks(Side),
    Neighbors(Side),
    IsNeighbor(Side),
    LinkTo(Side),
}

#[rattlefmt::skip]
fn set_word(code: u16) -> Option<QueryWord>
    ensures { result ≡ set_word code }
{
    match code {
        codes::TURTLES => Some(QueryWord::Whole(Whole::Turtles)),
        codes::PATCHES => Some(QueryWord::Whole(Whole::Patches)),
        codes::LINKS => Some(QueryWord::Whole(Whole::Links)),
        codes::NO_TURTLES => Some(QueryWord::Whole(Whole::NoTurtles)),
        codes::NO_PATCHES => Some(QueryWord::Whole(Whole::NoPatches)),
        codes::NO_LINKS => Some(QueryWord::Whole(Whole::NoLinks)),
        codes::TURTLE => Some(QueryWord::LookUp(LookUp::Turtle)),
        codes::PATCH => Some(QueryWord::LookUp(LookUp::Patch)),
        codes::LINK => Some(QueryWord::LookUp(LookUp::Link)),
        codes::IS_TURTLE => Some(QueryWord::OfBreed(OfBreed::Turtle)),
        codes::IS_LINK => Some(QueryWord::OfBreed(OfBreed::Link)),
        codes::OTHER => Some(QueryWord::OfSet(OfSet::Other)),
        codes::COUNT => Some(QueryWord::OfSet(OfSet::Count)),
        codes::ANY => Some(QueryWord::OfSet(OfSet::Any)),
        codes::TURTLE_SET => Some(QueryWord::Union(AgentKind::Turtle)),
        codes::PATCH_SET => Some(QueryWord::Union(AgentKind::Patch)),
        codes::LINK_SET => Some(QueryWord::Union(AgentKind::Link)),
        _ => None,
    }
}

#[rattlefmt::skip]
fn choice_word(code: u16) -> Option<QueryWord>
    ensures { result ≡ choice_word code }
{
    match code {
        codes::ONE_OF => Some(QueryWord::Choice(Choice::OneOf)),
        codes::N_OF => Some(QueryWord::Choice(Choice::NOf)),
        codes::UP_TO_N_OF => Some(QueryWord::Choice(Choice::UpToNOf)),
        _ => None,
    }
}

#[rattlefmt::skip]
fn place_word(code: u16) -> Option<QueryWord>
    ensures { result ≡ place_word code }
{
    match code {
        codes::TURTLES_ON => Some(QueryWord::Standing(Standing::On)),
        codes::TURTLES_HERE => Some(QueryWord::Standing(Standing::Here)),
        codes::TURTLES_AT => Some(QueryWord::Standing(Standing::At)),
        codes::AT_POINTS => Some(QueryWord::Standing(Standing::AtPoints)),
        codes::IN_RADIUS => Some(QueryWord::Standing(Standing::InRadius)),
        codes::IN_CONE => Some(QueryWord::Standing(Standing::InCone)),
        codes::NEIGHBORS => Some(QueryWord::Around(Around::Neighbors)),
        codes::NEIGHBORS4 => Some(QueryWord::Around(Around::Neighbors4)),
        codes::PATCH_HERE => Some(QueryWord::PatchBy(PatchBy::Here)),
        codes::PATCH_AT => Some(QueryWord::PatchBy(PatchBy::At)),
        codes::PATCH_AHEAD => Some(QueryWord::PatchBy(PatchBy::Ahead)),
        codes::PATCH_LEFT_AND_AHEAD => Some(QueryWord::PatchBy(PatchBy::LeftAndAhead)),
        codes::PATCH_RIGHT_AND_AHEAD => Some(QueryWord::PatchBy(PatchBy::RightAndAhead)),
        codes::PATCH_AT_HEADING_AND_DISTANCE => Some(QueryWord::PatchBy(PatchBy::HeadingAndDistance)),
        _ => None,
    }
}

#[rattlefmt::skip]
fn measure_word(code: u16) -> Option<QueryWord>
    ensures { result ≡ measure_word code }
{
    match code {
        codes::CAN_MOVE => Some(QueryWord::Facing(Facing::CanMove)),
        codes::DX => Some(QueryWord::Facing(Facing::Dx)),
        codes::DY => Some(QueryWord::Facing(Facing::Dy)),
        codes::DISTANCE => Some(QueryWord::Measure(Measure::Distance)),
        codes::TOWARDS => Some(QueryWord::Measure(Measure::Towards)),
        codes::DISTANCEXY => Some(QueryWord::MeasureXy(Measure::Distance)),
        codes::TOWARDSXY => Some(QueryWord::MeasureXy(Measure::Towards)),
        codes::BOTH_ENDS => Some(QueryWord::OfEnds(OfEnds::Both)),
        codes::LINK_LENGTH => Some(QueryWord::OfEnds(OfEnds::Length)),
        codes::LINK_HEADING => Some(QueryWord::OfEnds(OfEnds::Heading)),
        _ => None,
    }
}

#[rattlefmt::skip]
fn link_word(code: u16) -> Option<QueryWord>
    ensures { result ≡ link_word code }
{
    match code {
        codes::MY_LINKS => Some(QueryWord::MyLinks(Side::Any)),
        codes::MY_IN_LINKS => Some(QueryWord::MyLinks(Side::In)),
        codes::MY_OUT_LINKS => Some(QueryWord::MyLinks(Side::Out)),
        codes::LINK_NEIGHBORS => Some(QueryWord::Neighbors(Side::Any)),
        codes::IN_LINK_NEIGHBORS => Some(QueryWord::Neighbors(Side::In)),
        codes::OUT_LINK_NEIGHBORS => Some(QueryWord::Neighbors(Side::Out)),
        codes::LINK_NEIGHBOR => Some(QueryWord::IsNeighbor(Side::Any)),
        codes::IN_LINK_NEIGHBOR => Some(QueryWord::IsNeighbor(Side::In)),
        codes::OUT_LINK_NEIGHBOR => Some(QueryWord::IsNeighbor(Side::Out)),
        codes::LINK_WITH => Some(QueryWord::LinkTo(Side::Any)),
        codes::IN_LINK_FROM => Some(QueryWord::LinkTo(Side::In)),
        codes::OUT_LINK_TO => Some(QueryWord::LinkTo(Side::Out)),
        _ => None,
    }
}

/// The query that has a code, if one has.
pub fn query_word(code: u16) -> Option<QueryWord>
    ensures { result ≡ query_word code }
{
    set_word(code)
        .or(choice_word(code))
        .or(place_word(code))
        .or(measure_word(code))
        .or(link_word(code))
}
