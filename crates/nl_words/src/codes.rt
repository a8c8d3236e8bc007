//! The code of each built-in word, by name.
//!
//! A constant has the word's name in upper case, with `_` for `-` and without a question mark: `ALL` is the code of `all?`, `BF` that of
//! `bf`. The operators that are signs have names in words. That a code is the place of the word's row in the table is a clause of
//! `base_words`.
//!
//! The codes are counted by two enums, which have the words in the order of the table: an enum has at most 256 variants here, and a chain of
//! constants, each one more than the one before, at most 64.

pub const NOT_EQUAL: u16 = ToL::NotEqual as u16;

pub const TIMES: u16 = ToL::Times as u16;

pub const PLUS: u16 = ToL::Plus as u16;

pub const MINUS: u16 = ToL::Minus as u16;

pub const ARROW: u16 = ToL::Arrow as u16;

pub const DIVIDED: u16 = ToL::Divided as u16;

pub const LESS: u16 = ToL::Less as u16;

pub const LESS_EQUAL: u16 = ToL::LessEqual as u16;

pub const EQUAL: u16 = ToL::Equal as u16;

pub const GREATER: u16 = ToL::Greater as u16;

pub const GREATER_EQUAL: u16 = ToL::GreaterEqual as u16;

pub const POWER: u16 = ToL::Power as u16;

pub const ABS: u16 = ToL::Abs as u16;

pub const ALL: u16 = ToL::All as u16;

pub const AND: u16 = ToL::And as u16;

pub const ANY: u16 = ToL::Any as u16;

pub const ASK: u16 = ToL::Ask as u16;

pub const AT_POINTS: u16 = ToL::AtPoints as u16;

pub const ATAN: u16 = ToL::Atan as u16;

pub const AUTO_PLOT_OFF: u16 = ToL::AutoPlotOff as u16;

pub const AUTO_PLOT_ON: u16 = ToL::AutoPlotOn as u16;

pub const BACK: u16 = ToL::Back as u16;

pub const BASE_COLORS: u16 = ToL::BaseColors as u16;

pub const BEHAVIORSPACE_EXPERIMENT_NAME: u16 = ToL::BehaviorspaceExperimentName as u16;

pub const BEHAVIORSPACE_RUN_NUMBER: u16 = ToL::BehaviorspaceRunNumber as u16;

pub const BF: u16 = ToL::Bf as u16;

pub const BK: u16 = ToL::Bk as u16;

pub const BL: u16 = ToL::Bl as u16;

pub const BLACK: u16 = ToL::Black as u16;

pub const BLUE: u16 = ToL::Blue as u16;

pub const BOTH_ENDS: u16 = ToL::BothEnds as u16;

pub const BREED: u16 = ToL::Breed as u16;

pub const BROWN: u16 = ToL::Brown as u16;

pub const BUT_FIRST: u16 = ToL::ButFirst as u16;

pub const BUT_LAST: u16 = ToL::ButLast as u16;

pub const BUTFIRST: u16 = ToL::Butfirst as u16;

pub const BUTLAST: u16 = ToL::Butlast as u16;

pub const CA: u16 = ToL::Ca as u16;

pub const CAN_MOVE: u16 = ToL::CanMove as u16;

pub const CD: u16 = ToL::Cd as u16;

pub const CEILING: u16 = ToL::Ceiling as u16;

pub const CLEAR_ALL: u16 = ToL::ClearAll as u16;

pub const CLEAR_ALL_PLOTS: u16 = ToL::ClearAllPlots as u16;

pub const CLEAR_DRAWING: u16 = ToL::ClearDrawing as u16;

pub const CLEAR_GLOBALS: u16 = ToL::ClearGlobals as u16;

pub const CLEAR_LINKS: u16 = ToL::ClearLinks as u16;

pub const CLEAR_OUTPUT: u16 = ToL::ClearOutput as u16;

pub const CLEAR_PATCHES: u16 = ToL::ClearPatches as u16;

pub const CLEAR_PLOT: u16 = ToL::ClearPlot as u16;

pub const CLEAR_TICKS: u16 = ToL::ClearTicks as u16;

pub const CLEAR_TURTLES: u16 = ToL::ClearTurtles as u16;

pub const COLOR: u16 = ToL::Color as u16;

pub const COS: u16 = ToL::Cos as u16;

pub const COUNT: u16 = ToL::Count as u16;

pub const CP: u16 = ToL::Cp as u16;

pub const CREATE_LINK_FROM: u16 = ToL::CreateLinkFrom as u16;

pub const CREATE_LINK_TO: u16 = ToL::CreateLinkTo as u16;

pub const CREATE_LINK_WITH: u16 = ToL::CreateLinkWith as u16;

pub const CREATE_LINKS_FROM: u16 = ToL::CreateLinksFrom as u16;

pub const CREATE_LINKS_TO: u16 = ToL::CreateLinksTo as u16;

pub const CREATE_LINKS_WITH: u16 = ToL::CreateLinksWith as u16;

pub const CREATE_ORDERED_TURTLES: u16 = ToL::CreateOrderedTurtles as u16;

pub const CREATE_TEMPORARY_PLOT_PEN: u16 = ToL::CreateTemporaryPlotPen as u16;

pub const CREATE_TURTLES: u16 = ToL::CreateTurtles as u16;

pub const CRO: u16 = ToL::Cro as u16;

pub const CRT: u16 = ToL::Crt as u16;

pub const CT: u16 = ToL::Ct as u16;

pub const CYAN: u16 = ToL::Cyan as u16;

pub const DIE: u16 = ToL::Die as u16;

pub const DIFFUSE: u16 = ToL::Diffuse as u16;

pub const DIFFUSE4: u16 = ToL::Diffuse4 as u16;

pub const DIRECTED_LINK_BREED: u16 = ToL::DirectedLinkBreed as u16;

pub const DISPLAY: u16 = ToL::Display as u16;

pub const DISTANCE: u16 = ToL::Distance as u16;

pub const DISTANCEXY: u16 = ToL::Distancexy as u16;

pub const DOWNHILL: u16 = ToL::Downhill as u16;

pub const DOWNHILL4: u16 = ToL::Downhill4 as u16;

pub const DX: u16 = ToL::Dx as u16;

pub const DY: u16 = ToL::Dy as u16;

pub const E: u16 = ToL::E as u16;

pub const EMPTY: u16 = ToL::Empty as u16;

pub const END: u16 = ToL::End as u16;

pub const END1: u16 = ToL::End1 as u16;

pub const END2: u16 = ToL::End2 as u16;

pub const FACE: u16 = ToL::Face as u16;

pub const FACEXY: u16 = ToL::Facexy as u16;

pub const FALSE: u16 = ToL::False as u16;

pub const FD: u16 = ToL::Fd as u16;

pub const FILTER: u16 = ToL::Filter as u16;

pub const FIRST: u16 = ToL::First as u16;

pub const FLOOR: u16 = ToL::Floor as u16;

pub const FOLLOW: u16 = ToL::Follow as u16;

pub const FOLLOW_ME: u16 = ToL::FollowMe as u16;

pub const FOREACH: u16 = ToL::Foreach as u16;

pub const FORWARD: u16 = ToL::Forward as u16;

pub const FPUT: u16 = ToL::Fput as u16;

pub const GLOBALS: u16 = ToL::Globals as u16;

pub const GRAY: u16 = ToL::Gray as u16;

pub const GREEN: u16 = ToL::Green as u16;

pub const GREY: u16 = ToL::Grey as u16;

pub const HATCH: u16 = ToL::Hatch as u16;

pub const HEADING: u16 = ToL::Heading as u16;

pub const HIDDEN: u16 = ToL::Hidden as u16;

pub const HIDE_LINK: u16 = ToL::HideLink as u16;

pub const HIDE_TURTLE: u16 = ToL::HideTurtle as u16;

pub const HISTOGRAM: u16 = ToL::Histogram as u16;

pub const HOME: u16 = ToL::Home as u16;

pub const HT: u16 = ToL::Ht as u16;

pub const IF: u16 = ToL::If as u16;

pub const IFELSE: u16 = ToL::Ifelse as u16;

pub const IFELSE_VALUE: u16 = ToL::IfelseValue as u16;

pub const IN_CONE: u16 = ToL::InCone as u16;

pub const IN_LINK_FROM: u16 = ToL::InLinkFrom as u16;

pub const IN_LINK_NEIGHBOR: u16 = ToL::InLinkNeighbor as u16;

pub const IN_LINK_NEIGHBORS: u16 = ToL::InLinkNeighbors as u16;

pub const IN_RADIUS: u16 = ToL::InRadius as u16;

pub const INSERT_ITEM: u16 = ToL::InsertItem as u16;

pub const INT: u16 = ToL::Int as u16;

pub const IS_AGENT: u16 = ToL::IsAgent as u16;

pub const IS_AGENTSET: u16 = ToL::IsAgentset as u16;

pub const IS_BOOLEAN: u16 = ToL::IsBoolean as u16;

pub const IS_DIRECTED_LINK: u16 = ToL::IsDirectedLink as u16;

pub const IS_LINK_SET: u16 = ToL::IsLinkSet as u16;

pub const IS_LINK: u16 = ToL::IsLink as u16;

pub const IS_LIST: u16 = ToL::IsList as u16;

pub const IS_NUMBER: u16 = ToL::IsNumber as u16;

pub const IS_PATCH_SET: u16 = ToL::IsPatchSet as u16;

pub const IS_PATCH: u16 = ToL::IsPatch as u16;

pub const IS_STRING: u16 = ToL::IsString as u16;

pub const IS_TURTLE_SET: u16 = ToL::IsTurtleSet as u16;

pub const IS_TURTLE: u16 = ToL::IsTurtle as u16;

pub const IS_UNDIRECTED_LINK: u16 = ToL::IsUndirectedLink as u16;

pub const ITEM: u16 = ToL::Item as u16;

pub const JUMP: u16 = ToL::Jump as u16;

pub const LABEL: u16 = ToL::Label as u16;

pub const LABEL_COLOR: u16 = ToL::LabelColor as u16;

pub const LAST: u16 = ToL::Last as u16;

pub const LEFT: u16 = ToL::Left as u16;

pub const LENGTH: u16 = ToL::Length as u16;

pub const LET: u16 = ToL::Let as u16;

pub const LIME: u16 = ToL::Lime as u16;

pub const LINK: u16 = ToL::Link as u16;

pub const LINK_HEADING: u16 = ToL::LinkHeading as u16;

pub const LINK_LENGTH: u16 = ToL::LinkLength as u16;

pub const LINK_NEIGHBOR: u16 = ToL::LinkNeighbor as u16;

pub const LINK_NEIGHBORS: u16 = ToL::LinkNeighbors as u16;

pub const LINK_SET: u16 = ToL::LinkSet as u16;

pub const LINK_WITH: u16 = ToL::LinkWith as u16;

pub const LINKS: u16 = ToL::Links as u16;

pub const LINKS_OWN: u16 = ToL::LinksOwn as u16;

pub const LIST: u16 = ToL::List as u16;

pub const LOOP: u16 = ToL::Loop as u16;

pub const LPUT: u16 = ToL::Lput as u16;

pub const LT: u16 = ToL::Lt as u16;

const FROM_M: u16 = LT + 1;

pub const MAGENTA: u16 = FROM_M + FromM::Magenta as u16;

pub const MAP: u16 = FROM_M + FromM::Map as u16;

pub const MAX: u16 = FROM_M + FromM::Max as u16;

pub const MAX_N_OF: u16 = FROM_M + FromM::MaxNOf as u16;

pub const MAX_ONE_OF: u16 = FROM_M + FromM::MaxOneOf as u16;

pub const MAX_PXCOR: u16 = FROM_M + FromM::MaxPxcor as u16;

pub const MAX_PYCOR: u16 = FROM_M + FromM::MaxPycor as u16;

pub const MEAN: u16 = FROM_M + FromM::Mean as u16;

pub const MEDIAN: u16 = FROM_M + FromM::Median as u16;

pub const MEMBER: u16 = FROM_M + FromM::Member as u16;

pub const MIN: u16 = FROM_M + FromM::Min as u16;

pub const MIN_N_OF: u16 = FROM_M + FromM::MinNOf as u16;

pub const MIN_ONE_OF: u16 = FROM_M + FromM::MinOneOf as u16;

pub const MIN_PXCOR: u16 = FROM_M + FromM::MinPxcor as u16;

pub const MIN_PYCOR: u16 = FROM_M + FromM::MinPycor as u16;

pub const MOD: u16 = FROM_M + FromM::Mod as u16;

pub const MODES: u16 = FROM_M + FromM::Modes as u16;

pub const MOVE_TO: u16 = FROM_M + FromM::MoveTo as u16;

pub const MY_IN_LINKS: u16 = FROM_M + FromM::MyInLinks as u16;

pub const MY_LINKS: u16 = FROM_M + FromM::MyLinks as u16;

pub const MY_OUT_LINKS: u16 = FROM_M + FromM::MyOutLinks as u16;

pub const MYSELF: u16 = FROM_M + FromM::Myself as u16;

pub const N_OF: u16 = FROM_M + FromM::NOf as u16;

pub const N_VALUES: u16 = FROM_M + FromM::NValues as u16;

pub const NEIGHBORS: u16 = FROM_M + FromM::Neighbors as u16;

pub const NEIGHBORS4: u16 = FROM_M + FromM::Neighbors4 as u16;

pub const NO_DISPLAY: u16 = FROM_M + FromM::NoDisplay as u16;

pub const NO_LINKS: u16 = FROM_M + FromM::NoLinks as u16;

pub const NO_PATCHES: u16 = FROM_M + FromM::NoPatches as u16;

pub const NO_TURTLES: u16 = FROM_M + FromM::NoTurtles as u16;

pub const NOBODY: u16 = FROM_M + FromM::Nobody as u16;

pub const NOT: u16 = FROM_M + FromM::Not as u16;

pub const OF: u16 = FROM_M + FromM::Of as u16;

pub const ONE_OF: u16 = FROM_M + FromM::OneOf as u16;

pub const OR: u16 = FROM_M + FromM::Or as u16;

pub const ORANGE: u16 = FROM_M + FromM::Orange as u16;

pub const OTHER: u16 = FROM_M + FromM::Other as u16;

pub const OTHER_END: u16 = FROM_M + FromM::OtherEnd as u16;

pub const OUT_LINK_NEIGHBOR: u16 = FROM_M + FromM::OutLinkNeighbor as u16;

pub const OUT_LINK_NEIGHBORS: u16 = FROM_M + FromM::OutLinkNeighbors as u16;

pub const OUT_LINK_TO: u16 = FROM_M + FromM::OutLinkTo as u16;

pub const OUTPUT_PRINT: u16 = FROM_M + FromM::OutputPrint as u16;

pub const OUTPUT_SHOW: u16 = FROM_M + FromM::OutputShow as u16;

pub const OUTPUT_TYPE: u16 = FROM_M + FromM::OutputType as u16;

pub const OUTPUT_WRITE: u16 = FROM_M + FromM::OutputWrite as u16;

pub const PATCH: u16 = FROM_M + FromM::Patch as u16;

pub const PATCH_AHEAD: u16 = FROM_M + FromM::PatchAhead as u16;

pub const PATCH_AT: u16 = FROM_M + FromM::PatchAt as u16;

pub const PATCH_AT_HEADING_AND_DISTANCE: u16 = FROM_M + FromM::PatchAtHeadingAndDistance as u16;

pub const PATCH_HERE: u16 = FROM_M + FromM::PatchHere as u16;

pub const PATCH_LEFT_AND_AHEAD: u16 = FROM_M + FromM::PatchLeftAndAhead as u16;

pub const PATCH_RIGHT_AND_AHEAD: u16 = FROM_M + FromM::PatchRightAndAhead as u16;

pub const PATCH_SET: u16 = FROM_M + FromM::PatchSet as u16;

pub const PATCHES: u16 = FROM_M + FromM::Patches as u16;

pub const PATCHES_OWN: u16 = FROM_M + FromM::PatchesOwn as u16;

pub const PCOLOR: u16 = FROM_M + FromM::Pcolor as u16;

pub const PD: u16 = FROM_M + FromM::Pd as u16;

pub const PE: u16 = FROM_M + FromM::Pe as u16;

pub const PEN_DOWN: u16 = FROM_M + FromM::PenDown as u16;

pub const PEN_ERASE: u16 = FROM_M + FromM::PenErase as u16;

pub const PEN_MODE: u16 = FROM_M + FromM::PenMode as u16;

pub const PEN_SIZE: u16 = FROM_M + FromM::PenSize as u16;

pub const PEN_UP: u16 = FROM_M + FromM::PenUp as u16;

pub const PI: u16 = FROM_M + FromM::Pi as u16;

pub const PINK: u16 = FROM_M + FromM::Pink as u16;

pub const PLABEL: u16 = FROM_M + FromM::Plabel as u16;

pub const PLABEL_COLOR: u16 = FROM_M + FromM::PlabelColor as u16;

pub const PLOT: u16 = FROM_M + FromM::Plot as u16;

pub const PLOT_PEN_DOWN: u16 = FROM_M + FromM::PlotPenDown as u16;

pub const PLOT_PEN_RESET: u16 = FROM_M + FromM::PlotPenReset as u16;

pub const PLOT_PEN_UP: u16 = FROM_M + FromM::PlotPenUp as u16;

pub const PLOTXY: u16 = FROM_M + FromM::Plotxy as u16;

pub const POSITION: u16 = FROM_M + FromM::Position as u16;

pub const PRECISION: u16 = FROM_M + FromM::Precision as u16;

pub const PRINT: u16 = FROM_M + FromM::Print as u16;

pub const PU: u16 = FROM_M + FromM::Pu as u16;

pub const PXCOR: u16 = FROM_M + FromM::Pxcor as u16;

pub const PYCOR: u16 = FROM_M + FromM::Pycor as u16;

pub const RANDOM: u16 = FROM_M + FromM::Random as u16;

pub const RANDOM_FLOAT: u16 = FROM_M + FromM::RandomFloat as u16;

pub const RANDOM_PXCOR: u16 = FROM_M + FromM::RandomPxcor as u16;

pub const RANDOM_PYCOR: u16 = FROM_M + FromM::RandomPycor as u16;

pub const RANDOM_SEED: u16 = FROM_M + FromM::RandomSeed as u16;

pub const RANDOM_XCOR: u16 = FROM_M + FromM::RandomXcor as u16;

pub const RANDOM_YCOR: u16 = FROM_M + FromM::RandomYcor as u16;

pub const RANGE: u16 = FROM_M + FromM::Range as u16;

pub const RED: u16 = FROM_M + FromM::Red as u16;

pub const REDUCE: u16 = FROM_M + FromM::Reduce as u16;

pub const REMAINDER: u16 = FROM_M + FromM::Remainder as u16;

pub const REMOVE: u16 = FROM_M + FromM::Remove as u16;

pub const REMOVE_DUPLICATES: u16 = FROM_M + FromM::RemoveDuplicates as u16;

pub const REMOVE_ITEM: u16 = FROM_M + FromM::RemoveItem as u16;

pub const REPEAT: u16 = FROM_M + FromM::Repeat as u16;

pub const REPLACE_ITEM: u16 = FROM_M + FromM::ReplaceItem as u16;

pub const REPORT: u16 = FROM_M + FromM::Report as u16;

pub const RESET_PERSPECTIVE: u16 = FROM_M + FromM::ResetPerspective as u16;

pub const RESET_TICKS: u16 = FROM_M + FromM::ResetTicks as u16;

pub const REVERSE: u16 = FROM_M + FromM::Reverse as u16;

pub const RIDE: u16 = FROM_M + FromM::Ride as u16;

pub const RIDE_ME: u16 = FROM_M + FromM::RideMe as u16;

pub const RIGHT: u16 = FROM_M + FromM::Right as u16;

pub const ROUND: u16 = FROM_M + FromM::Round as u16;

pub const RP: u16 = FROM_M + FromM::Rp as u16;

pub const RT: u16 = FROM_M + FromM::Rt as u16;

pub const SCALE_COLOR: u16 = FROM_M + FromM::ScaleColor as u16;

pub const SE: u16 = FROM_M + FromM::Se as u16;

pub const SELF: u16 = FROM_M + FromM::Self_ as u16;

pub const SENTENCE: u16 = FROM_M + FromM::Sentence as u16;

pub const SET: u16 = FROM_M + FromM::Set as u16;

pub const SET_CURRENT_PLOT: u16 = FROM_M + FromM::SetCurrentPlot as u16;

pub const SET_CURRENT_PLOT_PEN: u16 = FROM_M + FromM::SetCurrentPlotPen as u16;

pub const SET_DEFAULT_SHAPE: u16 = FROM_M + FromM::SetDefaultShape as u16;

pub const SET_PLOT_PEN_COLOR: u16 = FROM_M + FromM::SetPlotPenColor as u16;

pub const SET_PLOT_PEN_INTERVAL: u16 = FROM_M + FromM::SetPlotPenInterval as u16;

pub const SET_PLOT_PEN_MODE: u16 = FROM_M + FromM::SetPlotPenMode as u16;

pub const SET_PLOT_X_RANGE: u16 = FROM_M + FromM::SetPlotXRange as u16;

pub const SET_PLOT_Y_RANGE: u16 = FROM_M + FromM::SetPlotYRange as u16;

pub const SETUP_PLOTS: u16 = FROM_M + FromM::SetupPlots as u16;

pub const SETXY: u16 = FROM_M + FromM::Setxy as u16;

pub const SHADE_OF: u16 = FROM_M + FromM::ShadeOf as u16;

pub const SHAPE: u16 = FROM_M + FromM::Shape as u16;

pub const SHOW: u16 = FROM_M + FromM::Show as u16;

pub const SHOW_LINK: u16 = FROM_M + FromM::ShowLink as u16;

pub const SHOW_TURTLE: u16 = FROM_M + FromM::ShowTurtle as u16;

pub const SHUFFLE: u16 = FROM_M + FromM::Shuffle as u16;

pub const SIN: u16 = FROM_M + FromM::Sin as u16;

pub const SIZE: u16 = FROM_M + FromM::Size as u16;

pub const SKY: u16 = FROM_M + FromM::Sky as u16;

pub const SORT: u16 = FROM_M + FromM::Sort as u16;

pub const SORT_BY: u16 = FROM_M + FromM::SortBy as u16;

pub const SORT_ON: u16 = FROM_M + FromM::SortOn as u16;

pub const SPROUT: u16 = FROM_M + FromM::Sprout as u16;

pub const SQRT: u16 = FROM_M + FromM::Sqrt as u16;

pub const ST: u16 = FROM_M + FromM::St as u16;

pub const STAMP: u16 = FROM_M + FromM::Stamp as u16;

pub const STAMP_ERASE: u16 = FROM_M + FromM::StampErase as u16;

pub const STANDARD_DEVIATION: u16 = FROM_M + FromM::StandardDeviation as u16;

pub const STOP: u16 = FROM_M + FromM::Stop as u16;

pub const SUBLIST: u16 = FROM_M + FromM::Sublist as u16;

pub const SUBSTRING: u16 = FROM_M + FromM::Substring as u16;

pub const SUBTRACT_HEADINGS: u16 = FROM_M + FromM::SubtractHeadings as u16;

pub const SUM: u16 = FROM_M + FromM::Sum as u16;

pub const TAN: u16 = FROM_M + FromM::Tan as u16;

pub const THICKNESS: u16 = FROM_M + FromM::Thickness as u16;

pub const TICK: u16 = FROM_M + FromM::Tick as u16;

pub const TICK_ADVANCE: u16 = FROM_M + FromM::TickAdvance as u16;

pub const TICKS: u16 = FROM_M + FromM::Ticks as u16;

pub const TIE_MODE: u16 = FROM_M + FromM::TieMode as u16;

pub const TO: u16 = FROM_M + FromM::To as u16;

pub const TO_REPORT: u16 = FROM_M + FromM::ToReport as u16;

pub const TOWARDS: u16 = FROM_M + FromM::Towards as u16;

pub const TOWARDSXY: u16 = FROM_M + FromM::Towardsxy as u16;

pub const TRUE: u16 = FROM_M + FromM::True as u16;

pub const TURQUOISE: u16 = FROM_M + FromM::Turquoise as u16;

pub const TURTLE: u16 = FROM_M + FromM::Turtle as u16;

pub const TURTLE_SET: u16 = FROM_M + FromM::TurtleSet as u16;

pub const TURTLES: u16 = FROM_M + FromM::Turtles as u16;

pub const TURTLES_AT: u16 = FROM_M + FromM::TurtlesAt as u16;

pub const TURTLES_HERE: u16 = FROM_M + FromM::TurtlesHere as u16;

pub const TURTLES_ON: u16 = FROM_M + FromM::TurtlesOn as u16;

pub const TURTLES_OWN: u16 = FROM_M + FromM::TurtlesOwn as u16;

pub const TYPE: u16 = FROM_M + FromM::Type as u16;

pub const UNDIRECTED_LINK_BREED: u16 = FROM_M + FromM::UndirectedLinkBreed as u16;

pub const UP_TO_N_OF: u16 = FROM_M + FromM::UpToNOf as u16;

pub const UPDATE_PLOTS: u16 = FROM_M + FromM::UpdatePlots as u16;

pub const UPHILL: u16 = FROM_M + FromM::Uphill as u16;

pub const UPHILL4: u16 = FROM_M + FromM::Uphill4 as u16;

pub const VARIANCE: u16 = FROM_M + FromM::Variance as u16;

pub const VIOLET: u16 = FROM_M + FromM::Violet as u16;

pub const WAIT: u16 = FROM_M + FromM::Wait as u16;

pub const WATCH: u16 = FROM_M + FromM::Watch as u16;

pub const WATCH_ME: u16 = FROM_M + FromM::WatchMe as u16;

pub const WHILE: u16 = FROM_M + FromM::While as u16;

pub const WHITE: u16 = FROM_M + FromM::White as u16;

pub const WHO: u16 = FROM_M + FromM::Who as u16;

pub const WITH: u16 = FROM_M + FromM::With as u16;

pub const WITH_MAX: u16 = FROM_M + FromM::WithMax as u16;

pub const WITH_MIN: u16 = FROM_M + FromM::WithMin as u16;

pub const WORD: u16 = FROM_M + FromM::Word as u16;

pub const WORLD_HEIGHT: u16 = FROM_M + FromM::WorldHeight as u16;

pub const WORLD_WIDTH: u16 = FROM_M + FromM::WorldWidth as u16;

pub const WRAP_COLOR: u16 = FROM_M + FromM::WrapColor as u16;

pub const WRITE: u16 = FROM_M + FromM::Write as u16;

pub const XCOR: u16 = FROM_M + FromM::Xcor as u16;

pub const XOR: u16 = FROM_M + FromM::Xor as u16;

pub const YCOR: u16 = FROM_M + FromM::Ycor as u16;

pub const YELLOW: u16 = FROM_M + FromM::Yellow as u16;

// The words from the signs to those with L.
enum ToL {
    NotEqual,
    Times,
    Plus,
    Minus,
    Arrow,
    Divided,
    Less,
    LessEqual,
    Equal,
    Greater,
    GreaterEqual,
    Power,

    Abs,
    All,
    And,
    Any,
    Ask,
    AtPoints,
    Atan,
    AutoPlotOff,
    AutoPlotOn,

    Back,
    BaseColors,
    BehaviorspaceExperimentName,
    BehaviorspaceRunNumber,
    Bf,
    Bk,
    Bl,
    Black,
    Blue,
    BothEnds,
    Breed,
    Brown,
    ButFirst,
    ButLast,
    Butfirst,
    Butlast,

    Ca,
    CanMove,
    Cd,
    Ceiling,
    ClearAll,
    ClearAllPlots,
    ClearDrawing,
    ClearGlobals,
    ClearLinks,
    ClearOutput,
    ClearPatches,
    ClearPlot,
    ClearTicks,
    ClearTurtles,
    Color,
    Cos,
    Count,
    Cp,
    CreateLinkFrom,
    CreateLinkTo,
    CreateLinkWith,
    CreateLinksFrom,
    CreateLinksTo,
    CreateLinksWith,
    CreateOrderedTurtles,
    CreateTemporaryPlotPen,
    CreateTurtles,
    Cro,
    Crt,
    Ct,
    Cyan,

    Die,
    Diffuse,
    Diffuse4,
    DirectedLinkBreed,
    Display,
    Distance,
    Distancexy,
    Downhill,
    Downhill4,
    Dx,
    Dy,

    E,
    Empty,
    End,
    End1,
    End2,

    Face,
    Facexy,
    False,
    Fd,
    Filter,
    First,
    Floor,
    Follow,
    FollowMe,
    Foreach,
    Forward,
    Fput,

    Globals,
    Gray,
    Green,
    Grey,

    Hatch,
    Heading,
    Hidden,
    HideLink,
    HideTurtle,
    Histogram,
    Home,
    Ht,

    If,
    Ifelse,
    IfelseValue,
    InCone,
    InLinkFrom,
    InLinkNeighbor,
    InLinkNeighbors,
    InRadius,
    InsertItem,
    Int,
    IsAgent,
    IsAgentset,
    IsBoolean,
    IsDirectedLink,
    IsLinkSet,
    IsLink,
    IsList,
    IsNumber,
    IsPatchSet,
    IsPatch,
    IsString,
    IsTurtleSet,
    IsTurtle,
    IsUndirectedLink,
    Item,

    Jump,

    Label,
    LabelColor,
    Last,
    Left,
    Length,
    Let,
    Lime,
    Link,
    LinkHeading,
    LinkLength,
    LinkNeighbor,
    LinkNeighbors,
    LinkSet,
    LinkWith,
    Links,
    LinksOwn,
    List,
    Loop,
    Lput,
    Lt,
}

// The words from M on.
enum FromM {
    Magenta,
    Map,
    Max,
    MaxNOf,
    MaxOneOf,
    MaxPxcor,
    MaxPycor,
    Mean,
    Median,
    Member,
    Min,
    MinNOf,
    MinOneOf,
    MinPxcor,
    MinPycor,
    Mod,
    Modes,
    MoveTo,
    MyInLinks,
    MyLinks,
    MyOutLinks,
    Myself,

    NOf,
    NValues,
    Neighbors,
    Neighbors4,
    NoDisplay,
    NoLinks,
    NoPatches,
    NoTurtles,
    Nobody,
    Not,

    Of,
    OneOf,
    Or,
    Orange,
    Other,
    OtherEnd,
    OutLinkNeighbor,
    OutLinkNeighbors,
    OutLinkTo,
    OutputPrint,
    OutputShow,
    OutputType,
    OutputWrite,

    Patch,
    PatchAhead,
    PatchAt,
    PatchAtHeadingAndDistance,
    PatchHere,
    PatchLeftAndAhead,
    PatchRightAndAhead,
    PatchSet,
    Patches,
    PatchesOwn,
    Pcolor,
    Pd,
    Pe,
    PenDown,
    PenErase,
    PenMode,
    PenSize,
    PenUp,
    Pi,
    Pink,
    Plabel,
    PlabelColor,
    Plot,
    PlotPenDown,
    PlotPenReset,
    PlotPenUp,
    Plotxy,
    Position,
    Precision,
    Print,
    Pu,
    Pxcor,
    Pycor,

    Random,
    RandomFloat,
    RandomPxcor,
    RandomPycor,
    RandomSeed,
    RandomXcor,
    RandomYcor,
    Range,
    Red,
    Reduce,
    Remainder,
    Remove,
    RemoveDuplicates,
    RemoveItem,
    Repeat,
    ReplaceItem,
    Report,
    ResetPerspective,
    ResetTicks,
    Reverse,
    Ride,
    RideMe,
    Right,
    Round,
    Rp,
    Rt,

    ScaleColor,
    Se,
    Self_,
    Sentence,
    Set,
    SetCurrentPlot,
    SetCurrentPlotPen,
    SetDefaultShape,
    SetPlotPenColor,
    SetPlotPenInterval,
    SetPlotPenMode,
    SetPlotXRange,
    SetPlotYRange,
    SetupPlots,
    Setxy,
    ShadeOf,
    Shape,
    Show,
    ShowLink,
    ShowTurtle,
    Shuffle,
    Sin,
    Size,
    Sky,
    Sort,
    SortBy,
    SortOn,
    Sprout,
    Sqrt,
    St,
    Stamp,
    StampErase,
    StandardDeviation,
    Stop,
    Sublist,
    Substring,
    SubtractHeadings,
    Sum,

    Tan,
    Thickness,
    Tick,
    TickAdvance,
    Ticks,
    TieMode,
    To,
    ToReport,
    Towards,
    Towardsxy,
    True,
    Turquoise,
    Turtle,
    TurtleSet,
    Turtles,
    TurtlesAt,
    TurtlesHere,
    TurtlesOn,
    TurtlesOwn,
    Type,

    UndirectedLinkBreed,
    UpToNOf,
    UpdatePlots,
    Uphill,
    Uphill4,

    Variance,
    Violet,

    Wait,
    Watch,
    WatchMe,
    While,
    White,
    Who,
    With,
    WithMax,
    WithMin,
    Word,
    WorldHeight,
    WorldWidth,
    WrapColor,
    Write,

    Xcor,
    Xor,

    Ycor,
    Yellow,
}
