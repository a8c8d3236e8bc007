//! Lone texts beside a program without procedures.
ghost use Rattle.std.specs.Prelude.{◌≡◌, [], IfOk};
ghost use Rattle.nl_tree.specs.Names.{IsDeclared};

use nl_check::{CheckRefusal, check};
use nl_check_model::{InnerKind, LoneRefusal, read_lone};
use nl_fixed::{Names, NoMemory, Str};
use nl_tree::{Breeds, Declared, Form, NamedWords, Procedures, Program, Trees};
use std::alloc::Global;

// Lets go of a thing by one call: a tree that ends inside of a function is walked there, variant by variant.
fn let_go<T: Drop>(_thing: T) {}

fn nothing(alloc: Global) -> Declared
    ensures names { IsDeclared result }
    ensures procedures { result.procedures ≡ [] }
{
    Declared {
        widgets: Names::empty(alloc),
        globals: Names::empty(alloc),
        turtles_own: Names::empty(alloc),
        patches_own: Names::empty(alloc),
        links_own: Names::empty(alloc),
        breeds: Breeds::empty(alloc),
        procedures: Procedures::empty(alloc),
        index: NamedWords::new(Vec::new(alloc)),
    }
}

fn empty_program(alloc: Global) -> Result<Program, CheckRefusal> {
    check(alloc, nothing(alloc), Trees::empty(alloc))
}

// What a text says: nothing where it has a tree.
type Said = Option<(InnerKind, u64, u64)>;

// The fault of a text, if it has one; None at want of memory.
fn said(alloc: Global, program: &Program, form: Form, text: &[u8]) -> Option<Said> {
    match read_lone(alloc, text, form, program) {
        Ok(tree) => {
            let_go(tree);
            Some(None)
        }
        Err(LoneRefusal::Fault(inner)) => Some(Some((inner.kind, inner.line, inner.column))),
        Err(LoneRefusal::NoMemory) => None,
    }
}

const COMMANDS: &[(&[u8], Said)] = &[
    (b"", None),
    (b"cro 1", None),
    (b"stop", None),
    (b"ask turtles [ fd 1 ] ; on\n", None),
    (b"cro 1\n  foo 2", Some((InnerKind::UnknownName, 2, 3))),
    (b"cro 1 ]", Some((InnerKind::Unexpected, 1, 7))),
    (b"show \"a", Some((InnerKind::OpenText, 1, 6))),
    (b"cro 1e99", Some((InnerKind::BadNumber, 1, 5))),
    (b"cro 1 ?{", Some((InnerKind::BadChar, 1, 8))),
    (b"cro 1 \xff {", Some((InnerKind::NotText, 1, 7))),
    (b"fd 1", Some((InnerKind::WrongContext, 1, 1))),
    (
        b"ask turtles [ sprout 1 ]",
        Some((InnerKind::WrongContext, 1, 15)),
    ),
    (b"set pxcor 1", Some((InnerKind::WrongContext, 1, 5))),
    (
        b"ask turtles [ set who 1 ]",
        Some((InnerKind::NotSettable, 1, 19)),
    ),
    (b"report 1", Some((InnerKind::NoReport, 1, 1))),
];

const REPORTERS: &[(&[u8], Said)] = &[
    (b"count turtles", None),
    (b"count", Some((InnerKind::Unexpected, 1, 6))),
    (b"", Some((InnerKind::Unexpected, 1, 1))),
    (b"1 +", Some((InnerKind::Unexpected, 1, 4))),
    (b"; only\n ", Some((InnerKind::Unexpected, 2, 2))),
    (b"who", Some((InnerKind::WrongContext, 1, 1))),
    (b"\"\\u\" {", Some((InnerKind::BadEscape, 1, 2))),
    (b"((", Some((InnerKind::Unexpected, 1, 3))),
];

fn all_say(alloc: Global, program: &Program, form: Form, texts: &[(&[u8], Said)]) -> bool {
    for (text, wanted) in texts {
        if said(alloc, program, form, text) != Some(*wanted) {
            return false;
        }
    }
    true
}

// Whether the texts say these things beside a program without procedures.
fn all_say_alone(alloc: Global, form: Form, texts: &[(&[u8], Said)]) -> bool {
    let Ok(program) = empty_program(alloc) else {
        return false;
    };
    let answer = all_say(alloc, &program, form, texts);
    let_go(program);
    answer
}

#[test]
fn texts_have_trees_or_faults_at_their_place(rt: HostRuntime) {
    assert!(rt; all_say_alone(rt.alloc(), Form::Commands, COMMANDS));
    assert!(rt; all_say_alone(rt.alloc(), Form::Reporter, REPORTERS));
}

// So many times one text, and another behind it.
fn repeated(alloc: Global, text: &[u8], times: usize, last: &[u8]) -> Result<Str, NoMemory> {
    let mut whole = Str::of(alloc, b"")?;
    for _ in 0..times {
        whole.append(alloc, text)?;
    }
    whole.append(alloc, last)?;
    Ok(whole)
}

// What the commands say that are so many times one text, and another behind it.
fn long_said(alloc: Global, text: &[u8], times: usize, last: &[u8]) -> Option<Said> {
    let text = repeated(alloc, text, times, last).ok()?;
    let program = empty_program(alloc).ok()?;
    let found = said(alloc, &program, Form::Commands, text.as_bytes());
    let_go(program);
    found
}

// A line of 100 characters.
const LINE: &[u8] =
    b"cro 1 ; births on a line, with a long comment behind it, as in texts that explain what they do ....\n";

#[test]
fn long_texts_are_read_to_their_end(rt: HostRuntime) {
    let alloc = rt.alloc();
    assert!(rt; long_said(alloc, LINE, 1_000, b"stop") == Some(None));
    let unknown = Some((InnerKind::UnknownName, 1_001, 3));
    assert!(rt; long_said(alloc, LINE, 1_000, b"  foo") == Some(unknown));
}

#[test]
fn texts_nest_up_to_the_limit(rt: HostRuntime) {
    let deep = Some((InnerKind::TooDeep, 1, 199));
    assert!(rt; long_said(rt.alloc(), b"(", 300, b"") == Some(deep));
}

// 64 bytes, which go 65,536 times into the limit.
const SPACES: &[u8] = b"                                                                ";

#[test]
fn too_long_texts_are_refused(rt: HostRuntime) {
    let long = Some((InnerKind::TooLong, 1, 4_194_305));
    assert!(rt; long_said(rt.alloc(), SPACES, 65_536, b" ") == Some(long));
}

#[test]
fn the_law_is_stated() {
    nl_check_model::lone_laws::lone_texts_say_one_thing();
}
