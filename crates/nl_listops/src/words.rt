//! Which word of values a code is.
//!
//! Words that take the same inputs in the same way are together in one enum. A second spelling is the same word.
ghost use Rattle.std.specs.Prelude.{◌≡◌};
ghost use Rattle.nl_listops.specs.Words.{arithmetic_word, truth_word, kind_word, list_word, series_word, statistic_word, other_word, value_word};

use nl_words::codes;

/// Words without inputs.
#[derive(Clone, Copy)]
pub enum Fixed {
    Pi,
    E,
    True,
    False,
    Nobody,
    BaseColors,
}

/// Words of a number that give a number.
#[derive(Clone, Copy)]
pub enum OfNumber {
    Abs,
    Ceiling,
    Cos,
    Floor,
    Int,
    Round,
    Sin,
    Sqrt,
    Tan,
    WrapColor,
}

/// Words of two numbers that give a number.
#[derive(Clone, Copy)]
pub enum OfNumbers {
    Plus,
    Minus,
    Times,
    Divided,
    Power,
    Modulo,
    Remainder,
    Atan,
    Precision,
    SubtractHeadings,
}

/// Words of two truths.
#[derive(Clone, Copy)]
pub enum OfTruths {
    And,
    Or,
    Xor,
}

/// Words that compare two values.
#[derive(Clone, Copy)]
pub enum Comparison {
    Equal,
    NotEqual,
    Less,
    Greater,
    LessEqual,
    GreaterEqual,
}

/// Tests of a value's kind. Those of turtles and links, which a breed may have of its own, are queries.
#[derive(Clone, Copy)]
pub enum KindTest {
    Number,
    Boolean,
    Text,
    List,
    Agent,
    Patch,
    Agentset,
    TurtleSet,
    PatchSet,
    LinkSet,
}

/// Words of any number of values.
#[derive(Clone, Copy)]
pub enum OfMany {
    List,
    Sentence,
    Word,
    Range,
}

/// Words of a list alone that give a list.
#[derive(Clone, Copy)]
pub enum OfList {
    RemoveDuplicates,
    Sort,
    Modes,
}

/// Words of a value and a list, which put the value at an end.
#[derive(Clone, Copy)]
pub enum PutAtEnd {
    First,
    Last,
}

/// Words of a list or text alone.
#[derive(Clone, Copy)]
pub enum OfSeries {
    First,
    Last,
    ButFirst,
    ButLast,
    Length,
    IsEmpty,
    Reverse,
}

/// Words of a place and a list or text.
#[derive(Clone, Copy)]
pub enum AtPlace {
    Item,
    RemoveItem,
}

/// Words of a place, a list or text, and what is put there.
#[derive(Clone, Copy)]
pub enum PutAtPlace {
    ReplaceItem,
    InsertItem,
}

/// Words that seek a value in a list or text.
#[derive(Clone, Copy)]
pub enum Search {
    Member,
    Position,
    Remove,
}

/// Words of the numbers of a list.
#[derive(Clone, Copy)]
pub enum Statistic {
    Sum,
    Min,
    Max,
    Mean,
    Median,
    Variance,
    StandardDeviation,
}

/// Words that draw.
#[derive(Clone, Copy)]
pub enum Draw {
    Random,
    RandomFloat,
    Shuffle,
}

/// A word of values.
#[derive(Clone, Copy)]
pub enum ValueWord {
    Fixed(Fixed),
    OfNumber(OfNumber),
    OfNumbers(OfNumbers),
    Not,
    OfTruths(OfTruths),
    Compare(Comparison),
    IsKind(KindTest),
    OfMany(OfMany),
    OfList(OfList),
    PutAtEnd(PutAtEnd),
    OfSeries(OfSeries),
    AtPlace(AtPlace),
    PutAtPlace(PutAtPlace),
    Search(Search),
    Sublist,
    Substring,
    Statistic(Statistic),
    ShadeOf,
    ScaleColor,
    Draws(Draw),
}

#[rattlefmt::skip]
fn arithmetic_word(code: u16) -> Option<ValueWord>
    ensures { result ≡ arithmetic_word code }
{
    match code {
        codes::PLUS => Some(ValueWord::OfNumbers(OfNumbers::Plus)),
        codes::MINUS => Some(ValueWord::OfNumbers(OfNumbers::Minus)),
        codes::TIMES => Some(ValueWord::OfNumbers(OfNumbers::Times)),
        codes::DIVIDED => Some(ValueWord::OfNumbers(OfNumbers::Divided)),
        codes::POWER => Some(ValueWord::OfNumbers(OfNumbers::Power)),
        codes::MOD => Some(ValueWord::OfNumbers(OfNumbers::Modulo)),
        codes::REMAINDER => Some(ValueWord::OfNumbers(OfNumbers::Remainder)),
        codes::ATAN => Some(ValueWord::OfNumbers(OfNumbers::Atan)),
        codes::PRECISION => Some(ValueWord::OfNumbers(OfNumbers::Precision)),
        codes::SUBTRACT_HEADINGS => Some(ValueWord::OfNumbers(OfNumbers::SubtractHeadings)),
        codes::ABS => Some(ValueWord::OfNumber(OfNumber::Abs)),
        codes::CEILING => Some(ValueWord::OfNumber(OfNumber::Ceiling)),
        codes::COS => Some(ValueWord::OfNumber(OfNumber::Cos)),
        codes::FLOOR => Some(ValueWord::OfNumber(OfNumber::Floor)),
        codes::INT => Some(ValueWord::OfNumber(OfNumber::Int)),
        codes::ROUND => Some(ValueWord::OfNumber(OfNumber::Round)),
        codes::SIN => Some(ValueWord::OfNumber(OfNumber::Sin)),
        codes::SQRT => Some(ValueWord::OfNumber(OfNumber::Sqrt)),
        codes::TAN => Some(ValueWord::OfNumber(OfNumber::Tan)),
        codes::WRAP_COLOR => Some(ValueWord::OfNumber(OfNumber::WrapColor)),
        _ => None,
    }
}

#[rattlefmt::skip]
fn truth_word(code: u16) -> Option<ValueWord>
    ensures { result ≡ truth_word code }
{
    match code {
        codes::AND => Some(ValueWord::OfTruths(OfTruths::And)),
        codes::OR => Some(ValueWord::OfTruths(OfTruths::Or)),
        codes::XOR => Some(ValueWord::OfTruths(OfTruths::Xor)),
        codes::NOT => Some(ValueWord::Not),
        codes::EQUAL => Some(ValueWord::Compare(Comparison::Equal)),
        codes::NOT_EQUAL => Some(ValueWord::Compare(Comparison::NotEqual)),
        codes::LESS => Some(ValueWord::Compare(Comparison::Less)),
        codes::GREATER => Some(ValueWord::Compare(Comparison::Greater)),
        codes::LESS_EQUAL => Some(ValueWord::Compare(Comparison::LessEqual)),
        codes::GREATER_EQUAL => Some(ValueWord::Compare(Comparison::GreaterEqual)),
        _ => None,
    }
}

#[rattlefmt::skip]
fn kind_word(code: u16) -> Option<ValueWord>
    ensures { result ≡ kind_word code }
{
    match code {
        codes::IS_NUMBER => Some(ValueWord::IsKind(KindTest::Number)),
        codes::IS_BOOLEAN => Some(ValueWord::IsKind(KindTest::Boolean)),
        codes::IS_STRING => Some(ValueWord::IsKind(KindTest::Text)),
        codes::IS_LIST => Some(ValueWord::IsKind(KindTest::List)),
        codes::IS_AGENT => Some(ValueWord::IsKind(KindTest::Agent)),
        codes::IS_PATCH => Some(ValueWord::IsKind(KindTest::Patch)),
        codes::IS_AGENTSET => Some(ValueWord::IsKind(KindTest::Agentset)),
        codes::IS_TURTLE_SET => Some(ValueWord::IsKind(KindTest::TurtleSet)),
        codes::IS_PATCH_SET => Some(ValueWord::IsKind(KindTest::PatchSet)),
        codes::IS_LINK_SET => Some(ValueWord::IsKind(KindTest::LinkSet)),
        _ => None,
    }
}

#[rattlefmt::skip]
fn list_word(code: u16) -> Option<ValueWord>
    ensures { result ≡ list_word code }
{
    match code {
        codes::LIST => Some(ValueWord::OfMany(OfMany::List)),
        codes::SENTENCE | codes::SE => Some(ValueWord::OfMany(OfMany::Sentence)),
        codes::WORD => Some(ValueWord::OfMany(OfMany::Word)),
        codes::RANGE => Some(ValueWord::OfMany(OfMany::Range)),
        codes::FPUT => Some(ValueWord::PutAtEnd(PutAtEnd::First)),
        codes::LPUT => Some(ValueWord::PutAtEnd(PutAtEnd::Last)),
        codes::REMOVE_DUPLICATES => Some(ValueWord::OfList(OfList::RemoveDuplicates)),
        codes::SORT => Some(ValueWord::OfList(OfList::Sort)),
        codes::MODES => Some(ValueWord::OfList(OfList::Modes)),
        codes::SUBLIST => Some(ValueWord::Sublist),
        codes::SUBSTRING => Some(ValueWord::Substring),
        _ => None,
    }
}

#[rattlefmt::skip]
fn series_word(code: u16) -> Option<ValueWord>
    ensures { result ≡ series_word code }
{
    match code {
        codes::FIRST => Some(ValueWord::OfSeries(OfSeries::First)),
        codes::LAST => Some(ValueWord::OfSeries(OfSeries::Last)),
        codes::BUT_FIRST | codes::BF | codes::BUTFIRST => Some(ValueWord::OfSeries(OfSeries::ButFirst)),
        codes::BUT_LAST | codes::BL | codes::BUTLAST => Some(ValueWord::OfSeries(OfSeries::ButLast)),
        codes::LENGTH => Some(ValueWord::OfSeries(OfSeries::Length)),
        codes::EMPTY => Some(ValueWord::OfSeries(OfSeries::IsEmpty)),
        codes::REVERSE => Some(ValueWord::OfSeries(OfSeries::Reverse)),
        codes::ITEM => Some(ValueWord::AtPlace(AtPlace::Item)),
        codes::REMOVE_ITEM => Some(ValueWord::AtPlace(AtPlace::RemoveItem)),
        codes::REPLACE_ITEM => Some(ValueWord::PutAtPlace(PutAtPlace::ReplaceItem)),
        codes::INSERT_ITEM => Some(ValueWord::PutAtPlace(PutAtPlace::InsertItem)),
        codes::MEMBER => Some(ValueWord::Search(Search::Member)),
        codes::POSITION => Some(ValueWord::Search(Search::Position)),
        codes::REMOVE => Some(ValueWord::Search(Search::Remove)),
        _ => None,
    }
}

#[rattlefmt::skip]
fn statistic_word(code: u16) -> Option<ValueWord>
    ensures { result ≡ statistic_word code }
{
    match code {
        codes::SUM => Some(ValueWord::Statistic(Statistic::Sum)),
        codes::MIN => Some(ValueWord::Statistic(Statistic::Min)),
        codes::MAX => Some(ValueWord::Statistic(Statistic::Max)),
        codes::MEAN => Some(ValueWord::Statistic(Statistic::Mean)),
        codes::MEDIAN => Some(ValueWord::Statistic(Statistic::Median)),
        codes::VARIANCE => Some(ValueWord::Statistic(Statistic::Variance)),
        codes::STANDARD_DEVIATION => Some(ValueWord::Statistic(Statistic::StandardDeviation)),
        _ => None,
    }
}

#[rattlefmt::skip]
fn other_word(code: u16) -> Option<ValueWord>
    ensures { result ≡ other_word code }
{
    match code {
        codes::PI => Some(ValueWord::Fixed(Fixed::Pi)),
        codes::E => Some(ValueWord::Fixed(Fixed::E)),
        codes::TRUE => Some(ValueWord::Fixed(Fixed::True)),
        codes::FALSE => Some(ValueWord::Fixed(Fixed::False)),
        codes::NOBODY => Some(ValueWord::Fixed(Fixed::Nobody)),
        codes::BASE_COLORS => Some(ValueWord::Fixed(Fixed::BaseColors)),
        codes::SHADE_OF => Some(ValueWord::ShadeOf),
        codes::SCALE_COLOR => Some(ValueWord::ScaleColor),
        codes::RANDOM => Some(ValueWord::Draws(Draw::Random)),
        codes::RANDOM_FLOAT => Some(ValueWord::Draws(Draw::RandomFloat)),
        codes::SHUFFLE => Some(ValueWord::Draws(Draw::Shuffle)),
        _ => None,
    }
}

/// The word of values that has this code, if one has.
pub fn value_word(code: u16) -> Option<ValueWord>
    ensures { result ≡ value_word code }
{
    arithmetic_word(code)
        .or(truth_word(code))
        .or(kind_word(code))
        .or(list_word(code))
        .or(series_word(code))
        .or(statistic_word(code))
        .or(other_word(code))
}
