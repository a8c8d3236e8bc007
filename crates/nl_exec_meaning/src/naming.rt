//! What a label is, once its name was looked up.
ghost use Rattle.std.specs.Prelude.{◌≡◌, IfOk};
ghost use Rattle.nl_tree.specs.Index.{named};
ghost use Rattle.nl_tree.specs.declared.tree.Label.TheVariants as label_of;
ghost use Rattle.nl_agents_layout.specs.BuiltIn.{slot_of_code};
ghost use Rattle.nl_exec_meaning.specs.Cases.{built_case, case_of, case_of_what};
ghost use Rattle.nl_exec_meaning.specs.Code.{case_of_op, case_of_text, written};
ghost use Rattle.std.specs.Option.{option_copied};
ghost use Rattle.nl_exec_meaning.specs.inner.Arena.{AreNames, Grows, IsNumbered, Says};

use crate::item::Op;
use crate::local_names::LocalNames;
use crate::words::{apart_word, built_word};
use nl_agents_layout::built_in::{
    BUILT_IN, COLOR, HEADING, HIDDEN, LABEL, LABEL_COLOR, PCOLOR, PEN_MODE, PEN_SIZE, PLABEL,
    PLABEL_COLOR, SHAPE, SIZE, THICKNESS, TIE_MODE,
};
use nl_fixed::{NoMemory, Str};
use nl_tree::{Label, Program, What, Word, word};
use nl_value::colors::color_named;
use nl_words::codes;
use std::alloc::Global;

/// The slot of a built-in variable, by the code of its word.
fn slot_of_code(code: u16) -> Option<u32>
    ensures { result ≡ slot_of_code code }
{
    let slot = match code {
        codes::COLOR => COLOR,
        codes::HEADING => HEADING,
        codes::SHAPE => SHAPE,
        codes::LABEL => LABEL,
        codes::LABEL_COLOR => LABEL_COLOR,
        codes::HIDDEN => HIDDEN,
        codes::SIZE => SIZE,
        codes::PEN_SIZE => PEN_SIZE,
        codes::PEN_MODE => PEN_MODE,
        codes::PCOLOR => PCOLOR,
        codes::PLABEL => PLABEL,
        codes::PLABEL_COLOR => PLABEL_COLOR,
        codes::THICKNESS => THICKNESS,
        codes::TIE_MODE => TIE_MODE,
        _ => return None,
    };
    Some(slot)
}

/// What a built-in word is, or the word of a breed: a variable, a color, or a word of the language.
fn built_op(name: &[u8], word: &Word, breed: Option<u32>, code: u16) -> Op
    ensures { Says result (built_case (named name.now word.now) breed code) }
{
    let runs = word.runs;
    if let Some(slot) = slot_of_code(code) {
        return Op::Owned { runs, slot };
    }
    if let Some(which) = apart_word(code) {
        return Op::Aside { runs, which };
    }
    if let Some(number) = color_named(name) {
        return Op::Number(number);
    }
    match built_word(code) {
        Some(word) => Op::Word { runs, breed, word },
        None => Op::Nothing,
    }
}

/// What a word of the model's table is. A slot past 2^32 is told as want of memory: no model declares so many variables.
fn word_op(name: &[u8], word: &Word) -> Result<Op, NoMemory>
    ensures { IfOk result (λ op. Says op (case_of_what (named name.now word.now) word.now.what)) }
{
    match word.what {
        What::Base(code) => Ok(built_op(name, word, None, code)),
        What::Made(breed, code) => Ok(built_op(name, word, Some(breed), code)),
        What::Global(slot) => Ok(Op::Global(slot)),
        What::Own(number) => match BUILT_IN.checked_add(number) {
            Some(slot) => Ok(Op::Owned {
                runs: word.runs,
                slot,
            }),
            None => Err(NoMemory),
        },
        What::Procedure(index) => Ok(Op::Procedure(index)),
    }
}

/// What a name is: a word of the model's table, and else a local.
fn name_op<'a>(
    alloc: Global,
    program: &'a Program,
    names: &mut LocalNames<'a>,
    name: &'a Str,
) -> Result<Op, NoMemory>
    ensures op { IfOk result (λ op. case_of_op names.new (label_of.Named name.now) op
        ≡ case_of program.now.declared (label_of.Named name.now)) }
    ensures numbered { IfOk result (λ op. IsNumbered names.new op) }
    ensures grows { Grows names.old names.new }
    ensures apart { AreNames names.old → AreNames names.new }
{
    match word(program.declared(), name.as_bytes()) {
        Some(word) => word_op(name.as_bytes(), &word),
        None => {
            let id = names.number(alloc, name)?;
            Ok(Op::Local(id))
        }
    }
}

/// What a node of this label is.
pub fn label_op<'a>(
    alloc: Global,
    program: &'a Program,
    names: &mut LocalNames<'a>,
    label: &'a Label,
) -> Result<Op, NoMemory>
    ensures op { IfOk result
        (λ op. case_of_op names.new label.now op ≡ case_of program.now.declared label.now) }
    ensures numbered { IfOk result (λ op. IsNumbered names.new op) }
    ensures grows { Grows names.old names.new }
    ensures apart { AreNames names.old → AreNames names.new }
{
    match label {
        Label::Number(number) => Ok(Op::Number(*number)),
        Label::Text(_) => Ok(Op::Words),
        Label::List => Ok(Op::Items),
        Label::Named(name) => name_op(alloc, program, names, name),
        Label::Negate => Ok(Op::Negation),
        Label::Paren => Ok(Op::Inside),
        Label::Commands => Ok(Op::Statements),
        Label::Reporter => Ok(Op::Inside),
        Label::Arrow(_) => Ok(Op::Inside),
    }
}

/// The text that a label is.
pub fn text_of(label: &Label) -> Option<&Str>
    ensures { case_of_text (option_copied result) ≡ written label.now }
{
    match label {
        Label::Text(text) => Some(text),
        _ => None,
    }
}
