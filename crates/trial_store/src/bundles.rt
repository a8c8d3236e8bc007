//! Links of ten breeds between the same two turtles. The trial runs over every store that there is.
ghost use Rattle.nl_tree.specs.Names.{AreWidgets, IsDeclared};

use nl_agents::Store;
use nl_check::check;
use nl_decl::declare;
use nl_fixed::Names;
use nl_plain::Plain;
use nl_scan::{Source, scan};
use nl_store::Indexed;
use nl_tree::{Declared, Program, Trees};
use std::alloc::Global;
use std::process::Abort;
use trial_stores::trials::{Look, Scene, Step, played};

// Every second breed has a direction.
const MODEL: &[u8] = b"undirected-link-breed [ k1s k1 ] directed-link-breed [ k2s k2 ] \
undirected-link-breed [ k3s k3 ] directed-link-breed [ k4s k4 ] undirected-link-breed [ k5s k5 ] \
directed-link-breed [ k6s k6 ] undirected-link-breed [ k7s k7 ] directed-link-breed [ k8s k8 ] \
undirected-link-breed [ k9s k9 ] directed-link-breed [ k10s k10 ]";

// No widgets stand beside the declarations.
fn no_widgets(alloc: Global) -> Names
    ensures { AreWidgets result }
{
    Names::empty(alloc)
}

// The program of declarations that have no procedures.
fn checked(alloc: Global, declared: Declared) -> Option<Program>
    requires { IsDeclared declared }
{
    if !declared.procedures.as_slice().is_empty() {
        return None;
    }
    match check(alloc, declared, Trees::empty(alloc)) {
        Ok(program) => Some(program),
        Err(_) => None,
    }
}

// The program of the model. None at want of memory.
fn program(alloc: Global) -> Option<Program> {
    let tokens = scan(alloc, MODEL).ok()?;
    let source = Source::new(MODEL, tokens.as_slice());
    match declare(alloc, &source, no_widgets(alloc)) {
        Ok(declared) => checked(alloc, declared),
        Err(_) => None,
    }
}

const HERE: (i64, i64) = (0, 0);

const BUNDLE: &[Scene] = &[
    (
        &[
            Step::Bear(0, HERE, None, 0),
            Step::Bear(0, HERE, None, 1),
            Step::Tie(1, false, 0, 1, 0),
            Step::Tie(2, true, 0, 1, 1),
            Step::Tie(3, false, 0, 1, 2),
            Step::Tie(4, true, 1, 0, 3),
            Step::Tie(5, false, 0, 1, 4),
            Step::Tie(6, true, 0, 1, 5),
            Step::Tie(7, false, 0, 1, 6),
            Step::Tie(8, true, 1, 0, 7),
            Step::Tie(9, false, 0, 1, 8),
            Step::Tie(10, true, 0, 1, 9),
            Step::Cut(4),
        ],
        &[
            Look::Links(&[0, 1, 2, 3, 5, 6, 7, 8, 9]),
            Look::LinksOf(0, &[0, 1, 2, 3, 5, 6, 7, 8, 9]),
            Look::LinksOf(1, &[0, 1, 2, 3, 5, 6, 7, 8, 9]),
            Look::Link(3, 4, true, 1, 0),
            Look::Link(9, 10, true, 0, 1),
            Look::DeadLink(4),
            Look::Unbreeded(false, 0),
        ],
    ),
    (
        &[Step::Tie(5, false, 0, 1, 10), Step::Kill(1)],
        &[
            Look::Links(&[]),
            Look::LinksOf(0, &[]),
            Look::DeadLink(9),
            Look::DeadLink(10),
            Look::Turtles(&[0]),
        ],
    ),
];

fn assert_bundle<S: Store>(rt: &impl Abort, alloc: Global) {
    let Some(model) = program(alloc) else {
        panic!(rt);
    };
    if let Err(wrong) = played::<S>(alloc, model, BUNDLE) {
        panic!(rt; "{wrong:?}");
    }
}

#[test]
fn ten_links_join_the_same_two(rt: HostRuntime) {
    assert_bundle::<Plain>(&rt, rt.alloc());
    assert_bundle::<Indexed>(&rt, rt.alloc());
}
