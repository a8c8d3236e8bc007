//! Models beside widgets, and without.
ghost use Rattle.std.specs.Prelude.{IfOk};
ghost use Rattle.nl_tree.specs.Names.{AreWidgets};

use nl_check::CheckKind;
use nl_check_model::{ModelKind, ModelRefusal, read_model};
use nl_decl::DeclKind;
use nl_fixed::{Names, NoMemory, Str};
use nl_parse::BodyKind;
use nl_scan::ScanKind;
use nl_tree::Program;
use std::alloc::Global;

// Lets go of a thing by one call: a tree that ends inside of a function is walked there, variant by variant.
fn let_go<T: Drop>(_thing: T) {}

fn one_widget(alloc: Global) -> Result<Names, NoMemory>
    ensures { IfOk result AreWidgets }
{
    let mut names = Names::empty(alloc);
    let name = Str::of(alloc, b"speed")?;
    names.push(alloc, name)?;
    Ok(names)
}

fn no_widgets(alloc: Global) -> Names
    ensures { AreWidgets result }
{
    Names::empty(alloc)
}

// The widget `speed`, or none.
fn widgets(alloc: Global, speed: bool) -> Result<Names, NoMemory>
    ensures { IfOk result AreWidgets }
{
    if speed {
        one_widget(alloc)
    } else {
        Ok(no_widgets(alloc))
    }
}

// What a file says: nothing where it is a program.
type Said = Option<(ModelKind, u64, u64)>;

fn program_of(alloc: Global, file: &[u8], speed: bool) -> Result<Program, ModelRefusal> {
    let widgets = widgets(alloc, speed)?;
    read_model(alloc, file, widgets)
}

// The fault of a file beside the widget `speed`, or beside none, if it has one; None at want of memory.
fn said(alloc: Global, file: &[u8], speed: bool) -> Option<Said> {
    match program_of(alloc, file, speed) {
        Ok(program) => {
            let_go(program);
            Some(None)
        }
        Err(ModelRefusal::Fault(fault)) => Some(Some((fault.kind, fault.line, fault.column))),
        Err(ModelRefusal::NoMemory) => None,
    }
}

fn all_say(alloc: Global, speed: bool, files: &[(&[u8], Said)]) -> bool {
    for (file, wanted) in files {
        if said(alloc, file, speed) != Some(*wanted) {
            return false;
        }
    }
    true
}

const UNKNOWN: ModelKind = ModelKind::Body(BodyKind::UnknownName);

const UNEXPECTED: ModelKind = ModelKind::Body(BodyKind::Unexpected);

const DUPLICATE: ModelKind = ModelKind::Declaration(DeclKind::Duplicate);

const BAD_DECLARATION: ModelKind = ModelKind::Declaration(DeclKind::BadDeclaration);

const WRONG_CONTEXT: ModelKind = ModelKind::Check(CheckKind::WrongContext);

const NOT_SETTABLE: ModelKind = ModelKind::Check(CheckKind::NotSettable);

// Models that name the widget `speed`.
const BESIDE: &[(&[u8], Said)] = &[
    (b"to go fd speed end", None),
    (b"to go\n  set speed 2\nend", None),
    (b"globals [ speed ] to go fd Speed end", None),
    (b"globals [ speed Speed ]", Some((DUPLICATE, 1, 17))),
    (b"patches-own [ speed ]", Some((DUPLICATE, 1, 15))),
    (b"to speed end", Some((DUPLICATE, 1, 4))),
    (b"to go [ speed ]\nend", Some((DUPLICATE, 1, 9))),
    (b"to go\n  let speed 1\nend", Some((UNEXPECTED, 2, 7))),
    (b"to go fd haste end", Some((UNKNOWN, 1, 10))),
];

// The same without it.
const ALONE: &[(&[u8], Said)] = &[
    (b"to go fd speed end", Some((UNKNOWN, 1, 10))),
    (b"to go\n  set speed 2\nend", Some((UNKNOWN, 2, 7))),
    (b"globals [ speed ] to go fd Speed end", None),
    (b"patches-own [ speed ]", None),
    (b"to speed end", None),
    (b"to go [ speed ]\nend", None),
    (b"to go\n  let speed 1\nend", None),
];

#[test]
fn widgets_are_names_of_the_model(rt: HostRuntime) {
    assert!(rt; all_say(rt.alloc(), true, BESIDE));
    assert!(rt; all_say(rt.alloc(), false, ALONE));
}

// The first fault by the order of the stages, wherever the others stand.
const STAGES: &[(&[u8], Said)] = &[
    (b"", None),
    (
        b"to go foo to end globals [ count ] \"",
        Some((ModelKind::Scan(ScanKind::OpenText), 1, 36)),
    ),
    (
        b"to go foo end globals [ a a ] x",
        Some((BAD_DECLARATION, 1, 31)),
    ),
    (b"to go foo end globals [ a a ]", Some((DUPLICATE, 1, 27))),
    (
        b"to a set who 1 end\nto b fd ) end\nto c foo end",
        Some((UNEXPECTED, 2, 9)),
    ),
    (
        b"to a\nset who 1\nend to b fd 1 cro 1 end",
        Some((NOT_SETTABLE, 2, 5)),
    ),
    (
        b"to a fd 1\n  cro 1 end to b set who 1 end",
        Some((WRONG_CONTEXT, 2, 3)),
    ),
];

#[test]
fn the_first_fault_is_told(rt: HostRuntime) {
    assert!(rt; all_say(rt.alloc(), false, STAGES));
}

// What stands behind the code is no part of it, and a fault at the end of the code stands there.
const SECTIONS: &[(&[u8], Said)] = &[
    (
        b"to go fd speed end\n@#$#@#$#@\nGRAPHICS-WINDOW\n{{{ \"\n",
        None,
    ),
    (
        b"to go\n  fd 1\n@#$#@#$#@\nend\n",
        Some((BAD_DECLARATION, 3, 1)),
    ),
    (b"@#$#@#$#@\nto go foo end", None),
];

#[test]
fn sections_are_left_out(rt: HostRuntime) {
    assert!(rt; all_say(rt.alloc(), true, SECTIONS));
}

// So many times one text, and another behind it.
fn repeated(alloc: Global, text: &[u8], times: usize, last: &[u8]) -> Result<Str, NoMemory> {
    let mut whole = Str::of(alloc, b"")?;
    for _ in 0..times {
        whole.append(alloc, text)?;
    }
    whole.append(alloc, last)?;
    Ok(whole)
}

fn long_said(alloc: Global, text: &[u8], times: usize, last: &[u8]) -> Option<Said> {
    let file = repeated(alloc, text, times, last).ok()?;
    said(alloc, file.as_bytes(), true)
}

// 64 bytes, which go 65,536 times into the limit.
const SPACES: &[u8] = b"                                                                ";

#[test]
fn files_end_at_the_limit(rt: HostRuntime) {
    let alloc = rt.alloc();
    let long = Some((ModelKind::Scan(ScanKind::TooLong), 1, 4_194_305));
    assert!(rt; long_said(alloc, SPACES, 65_536, b"") == Some(None));
    assert!(rt; long_said(alloc, SPACES, 65_536, b" ") == Some(long));
    assert!(rt; long_said(alloc, SPACES, 65_536, b"\n@#$#@#$#@\n") == Some(long));
}

// A line of about 100 characters.
const LINE: &[u8] =
    b"  set speed speed + 1 ; a statement on a line, with a long comment behind it, as explained models have\n";

// A procedure of a thousand lines, and one behind it that names what there isn't.
fn long_model(alloc: Global) -> Result<Str, NoMemory> {
    let file = repeated(alloc, LINE, 1_000, b"end to go fd haste end")?;
    let mut whole = Str::of(alloc, b"to setup\n")?;
    whole.append(alloc, file.as_bytes())?;
    Ok(whole)
}

fn long_model_said(alloc: Global) -> Option<Said> {
    let file = long_model(alloc).ok()?;
    said(alloc, file.as_bytes(), true)
}

#[test]
fn long_models_are_read_to_their_end(rt: HostRuntime) {
    let unknown = Some((UNKNOWN, 1_002, 14));
    assert!(rt; long_model_said(rt.alloc()) == Some(unknown));
}

#[test]
fn the_law_is_stated() {
    nl_check_model::laws::models_say_one_thing();
}
