//! The texts of an experiment beside a program.
ghost use Rattle.std.specs.Prelude.{◌≡◌, ◌∷◌, [], IfOk, IfErr, is_some, string_bytes};
ghost use Rattle.nl_tree.specs.Views.{plain};
ghost use Rattle.nl_experiment_fields.specs.Keys.{measure_when_key, until_key};
ghost use Rattle.nl_experiment.specs.Texts as spec;
ghost use Rattle.nl_experiment.specs.Texts.{AreTreesFor, IsTreeFor, RefusesTexts, lone};

use crate::faults::{PlanFault, PlanRefusal};
use nl_check_model::{Inner, LoneRefusal, read_lone};
use nl_experiment_fields::Fields;
use nl_experiment_keys::PlanKind;
use nl_fixed::{NoMemory, Str};
use nl_tree::{Form, Program, Tree, Trees};
use std::alloc::Global;

/// The trees of the texts of an experiment.
#[derive(Drop)]
pub struct Texts {
    pub setup: Tree,
    pub go: Tree,
    pub until: Option<Tree>,
    pub metrics: Trees,
    pub measure_when: Option<Tree>,
}

// A fault of the text at a key, or want of memory for it.
fn bad_text(alloc: Global, key: &str, inner: Inner) -> PlanRefusal
    ensures { spec.TellsText key.now inner result }
{
    match Str::of(alloc, key.as_bytes()) {
        Ok(key) => PlanRefusal::Fault(PlanFault {
            kind: PlanKind::BadText,
            key,
            inner: Some(inner),
        }),
        Err(NoMemory) => PlanRefusal::NoMemory,
    }
}

// The tree of one text.
fn tree_at(
    alloc: Global,
    key: &str,
    form: Form,
    text: &Str,
    program: &Program,
) -> Result<Tree, PlanRefusal>
    ensures tree { IfOk result (λ tree.
        IsTreeFor program.now (lone key.now form text.now) (plain tree)) }
    ensures fault { IfErr result (RefusesTexts program.now (lone key.now form text.now ∷ [])) }
{
    match read_lone(alloc, text.as_bytes(), form, program) {
        Ok(tree) => Ok(tree),
        Err(LoneRefusal::Fault(inner)) => Err(bad_text(alloc, key, inner)),
        Err(LoneRefusal::NoMemory) => Err(PlanRefusal::NoMemory),
    }
}

// The tree of the condition of the end, where there is one.
fn until_tree(
    alloc: Global,
    until: &Option<Str>,
    program: &Program,
) -> Result<Option<Tree>, PlanRefusal>
    ensures trees { IfOk result (λ tree.
        AreTreesFor program.now (spec.until_texts until.now) (spec.maybe_trees tree)) }
    ensures fault { IfErr result (RefusesTexts program.now (spec.until_texts until.now)) }
    ensures until { IfOk result (λ tree. is_some tree ≡ is_some until.now) }
{
    match until {
        Some(text) => {
            let tree = tree_at(alloc, "until", Form::Reporter, text, program)?;
            Ok(Some(tree))
        }
        None => Ok(None),
    }
}

// The tree of the condition of the measures, where there is one.
fn when_tree(
    alloc: Global,
    when: &Option<Str>,
    program: &Program,
) -> Result<Option<Tree>, PlanRefusal>
    ensures trees { IfOk result (λ tree.
        AreTreesFor program.now (spec.when_texts when.now) (spec.maybe_trees tree)) }
    ensures fault { IfErr result (RefusesTexts program.now (spec.when_texts when.now)) }
    ensures when { IfOk result (λ tree. is_some tree ≡ is_some when.now) }
{
    match when {
        Some(text) => {
            let tree = tree_at(alloc, "measure-when", Form::Reporter, text, program)?;
            Ok(Some(tree))
        }
        None => Ok(None),
    }
}

// What a metric is called in a key.
fn metric_key(alloc: Global, number: usize) -> Result<String, NoMemory>
    ensures { IfOk result (λ key. string_bytes key ≡ spec.in_metric number) }
{
    Ok(format!(in alloc; "metric {number}")?)
}

// The tree of the metric of this number.
fn metric_tree(
    alloc: Global,
    number: usize,
    text: &Str,
    program: &Program,
) -> Result<Tree, PlanRefusal>
    ensures tree { IfOk result (λ tree.
        IsTreeFor program.now (spec.metric number text.now) (plain tree)) }
    ensures fault { IfErr result (RefusesTexts program.now (spec.metric number text.now ∷ [])) }
{
    let key = metric_key(alloc, number)?;
    tree_at(alloc, key.as_str(), Form::Reporter, text, program)
}

// The trees of the metrics.
#[tactic(auto, using(crate::proofs::Lone::left_bad, crate::proofs::Lone::left_done))]
fn metric_trees(alloc: Global, metrics: &[Str], program: &Program) -> Result<Trees, PlanRefusal>
    ensures trees { IfOk result (AreTreesFor program.now (spec.metrics_from 1 metrics.now)) }
    ensures fault { IfErr result (RefusesTexts program.now (spec.metrics_from 1 metrics.now)) }
{
    let mut trees = Trees::empty(alloc);
    let mut number = 0;
    let mut left = metrics;
    'metrics: while let Some((text, behind)) = left.split_first() {
        left = behind;
        number += 1;
        let tree = metric_tree(alloc, number, text, program)?;
        trees.push(alloc, tree)?;
    }
    Ok(trees)
}

/// The trees of all texts of an experiment, or the first fault in the order of their keys.
#[tactic(auto, using(crate::proofs::Lone::refused_setup, crate::proofs::Lone::refused_go, crate::proofs::Lone::refused_until, crate::proofs::Lone::refused_when, crate::proofs::Lone::refused_metrics, crate::proofs::Lone::all_trees))]
pub(crate) fn texts_of(
    alloc: Global,
    fields: &Fields,
    program: &Program,
) -> Result<Texts, PlanRefusal>
    ensures trees { IfOk result (λ texts.
        AreTreesFor program.now (spec.texts_of fields.now) (spec.trees_of texts)) }
    ensures fault { IfErr result (RefusesTexts program.now (spec.texts_of fields.now)) }
    ensures until { IfOk result (λ texts. is_some texts.until ≡ is_some fields.now.until) }
    ensures when { IfOk result (λ texts. is_some texts.measure_when ≡ is_some fields.now.measure_when) }
{
    let setup = tree_at(alloc, "setup", Form::Commands, &fields.setup, program)?;
    let go = tree_at(alloc, "go", Form::Commands, &fields.go, program)?;
    let until = until_tree(alloc, &fields.until, program)?;
    let measure_when = when_tree(alloc, &fields.measure_when, program)?;
    let metrics = metric_trees(alloc, fields.metrics.as_slice(), program)?;
    Ok(Texts {
        setup,
        go,
        until,
        metrics,
        measure_when,
    })
}
