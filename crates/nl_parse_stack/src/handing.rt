//! Trees handed to what waits for them.
ghost use Rattle.std.specs.Prelude.{◌≡◌, ◌∷◌, List, OnOk, IfOk};
ghost use Rattle.nl_fixed.specs.Nouns.{Names};
ghost use Rattle.nl_tree.specs.Tree.{node};
ghost use Rattle.nl_tree.specs.Grammar.{and_last, leaf, two};
ghost use Rattle.nl_tree.specs.declared.tree.Label.TheVariants as label;
ghost use Rattle.nl_parse_grammar.specs.Machine as M;
ghost use Rattle.nl_parse_grammar.specs.declared.pending.Shape.{Shape};
ghost use Rattle.nl_parse_grammar.specs.Machine.{end_statement, next, closed, supply, accept, end_list, settle, got, InMany, InNear};
ghost use Rattle.std.specs.Result.{IsErrOf};
ghost use Rattle.nl_parse_stack.specs.declared.reader.Refusal.TheVariants.{Unexpected};
ghost use Rattle.nl_parse_reading.specs.inner.View.{needs_of};
ghost use Rattle.nl_parse_reading.specs.inner.Reading.{frame_of, maybe_over};
ghost use Rattle.nl_parse_stack.specs.inner.State.{stack_of, names_of, state_of};
ghost use Rattle.nl_parse_stack.specs.inner.Asked.{ends_newest, is_waiting};
ghost use Rattle.nl_parse_stack.specs.inner.Steps.{Reaches};

use crate::reader::{Reader, Refusal};
use nl_fixed::Str;
use nl_parse_grammar::{Last, Shape};
use nl_parse_reading::frames::{Frame, Mode, begin_mode, build, closes};
use nl_parse_reading::marks::{Head, Inputs};
use nl_parse_reading::parts::{Grouped, Grown};
use nl_tree::Label;

impl<'a> Reader<'a> {
    /// Ends a statement that makes this name.
    #[tactic(auto, using(nl_parse_reading::proofs::Framed::made_push))]
    pub fn end_statement(&mut self, tree: Grown, made: Option<Str>) -> Result<(), Refusal>
        ensures { Reaches result self.old self.new
            (λ e K. end_statement tree (maybe_over made e) K) }
    {
        match self.take() {
            Some(Frame::Statements(bracket, ending, names, statements)) => {
                let mut names = names;
                let mut statements = statements;
                statements.add(self.alloc, tree)?;
                if let Some(name) = made {
                    names.push(self.alloc, name)?;
                }
                self.enter(
                    Mode::Stating,
                    Frame::Statements(bracket, ending, names, statements),
                )
            }
            Some(Frame::ArrowCommands(bracket, heads, names, statements)) => {
                let mut names = names;
                let mut statements = statements;
                statements.add(self.alloc, tree)?;
                if let Some(name) = made {
                    names.push(self.alloc, name)?;
                }
                self.enter(
                    Mode::Stating,
                    Frame::ArrowCommands(bracket, heads, names, statements),
                )
            }
            Some(Frame::StatementParen(bracket)) => {
                self.put_back(Frame::StatementParen(bracket));
                self.turn(Mode::Ended(tree, made));
                Ok(())
            }
            other => {
                self.turn(Mode::Dead(other, made));
                Ok(())
            }
        }
    }

    /// Goes on with the next input of a call, or with what follows its inputs.
    pub fn next(
        &mut self,
        head: Head,
        inputs: Grouped,
        rest: Inputs,
        last: Last,
    ) -> Result<(), Refusal>
        ensures { Reaches result self.old self.new
            (next head.name head.place inputs (needs_of rest) last) }
    {
        match rest.split() {
            Some((need, rest)) => {
                self.enter(
                    begin_mode(need),
                    Frame::Call(head, inputs, need, rest, last),
                )
            }
            None => match last {
                Last::Item => self.enter(Mode::Begin, Frame::LastItem(head, inputs)),
                Last::Block(block) => self.enter(
                    Mode::Opening(block),
                    Frame::LastBlock(head, inputs, block),
                ),
                Last::Nothing => self.end_statement(
                    inputs.under(Label::Named(head.name), head.place),
                    None,
                ),
            },
        }
    }

    /// Hands what is closed to what waits for it.
    #[tactic(auto, using(crate::proofs::Waiting::at_hand))]
    pub fn closed(&mut self, shape: Shape, tree: Grown) -> Result<(), Refusal>
        ensures { Reaches result self.old self.new (closed shape tree) }
    {
        if !self.is_at_side() {
            self.turn(Mode::Have(shape, tree));
            return Ok(());
        }
        match self.take() {
            Some(Frame::Near(head, sides, others)) => self.another_side(
                head, sides, others, shape, tree,
            ),
            _ => unreachable!(),
        }
    }

    // A right side of an operator that has so many more.
    #[tactic(auto, using(nl_parse_reading::proofs::Needs::one_less))]
    fn another_side(
        &mut self,
        head: Head,
        sides: Grouped,
        others: u64,
        shape: Shape,
        tree: Grown,
    ) -> Result<(), Refusal>
        ensures { Reaches result self.old self.new
            (λ e K. closed shape tree e (InNear head.name head.place sides others ∷ K)) }
    {
        let mut sides = sides;
        sides.add(self.alloc, tree)?;
        if others == 0 {
            let tree = sides.under(Label::Named(head.name), head.place);
            self.turn(Mode::Have(Shape::Fixed, tree));
            return Ok(());
        }
        self.enter(Mode::Begin, Frame::Near(head, sides, others - 1))
    }

    // One more input of a call, in front of the rest.
    fn another_input(
        &mut self,
        head: Head,
        inputs: Grouped,
        rest: Inputs,
        last: Last,
        tree: Grown,
    ) -> Result<(), Refusal>
        ensures { Reaches result self.old self.new
            (next head.name head.place (and_last inputs tree) (needs_of rest) last) }
    {
        let mut inputs = inputs;
        inputs.add(self.alloc, tree)?;
        self.next(head, inputs, rest, last)
    }

    /// Hands a block, or a variable, to what waits for it.
    pub fn supply(&mut self, tree: Grown) -> Result<(), Refusal>
        ensures { Reaches result self.old self.new (supply tree) }
    {
        match self.take() {
            Some(Frame::Call(head, inputs, _, rest, last)) => self.another_input(
                head, inputs, rest, last, tree,
            ),
            Some(Frame::LastBlock(head, inputs, _)) => {
                let mut inputs = inputs;
                inputs.add(self.alloc, tree)?;
                self.closed(
                    Shape::Fixed,
                    inputs.under(Label::Named(head.name), head.place),
                )
            }
            Some(Frame::With(head, left)) => {
                let tree = Grown::pair(
                    self.alloc,
                    Label::Named(head.name),
                    head.place,
                    left,
                    tree,
                )?;
                self.turn(Mode::Have(Shape::Fixed, tree));
                Ok(())
            }
            other => {
                self.turn(Mode::Dead(other, None));
                Ok(())
            }
        }
    }

    /// Hands an expression, or an item, that no operator follows to what waits for it.
    #[tactic(auto, using(crate::proofs::Waiting::not_waiting))]
    pub fn accept(&mut self, shape: Shape, tree: Grown) -> Result<(), Refusal>
        ensures { Reaches result self.old self.new (accept shape tree) }
    {
        if !self.is_waiting() {
            self.turn(Mode::Shut(shape, tree));
            return Ok(());
        }
        match self.take() {
            Some(Frame::Call(head, inputs, _, rest, last)) => self.another_input(
                head, inputs, rest, last, tree,
            ),
            Some(Frame::Many(head, items, others)) => self.another_item(head, items, others, tree),
            Some(Frame::Items(bracket, label, place, items)) => {
                let mut items = items;
                items.add(self.alloc, tree)?;
                self.enter(Mode::Begin, Frame::Items(bracket, label, place, items))
            }
            Some(Frame::Let(head, name)) => self.end_let(head, name, tree),
            _ => unreachable!(),
        }
    }

    // Whether an expression is waited for, and not only what closes it.
    fn is_waiting(&self) -> bool
        ensures { result ≡ is_waiting (stack_of self.now) }
    {
        match self.newest() {
            Some(frame) => waits(frame),
            None => false,
        }
    }

    // An item of a call that has so many more as a rule.
    #[tactic(auto, using(nl_parse_reading::proofs::Needs::one_less))]
    fn another_item(
        &mut self,
        head: Head,
        items: Grouped,
        others: u64,
        tree: Grown,
    ) -> Result<(), Refusal>
        requires { others ≡ 0 → ⊥ }
        ensures { (x : Shape) → Reaches result self.old self.new
            (λ e K. accept x tree e (InMany head.name head.place items others ∷ K)) }
    {
        let mut items = items;
        items.add(self.alloc, tree)?;
        self.enter(Mode::Begin, Frame::Many(head, items, others - 1))
    }

    // The value of a new name.
    fn end_let(&mut self, head: Head, name: Head, tree: Grown) -> Result<(), Refusal>
        ensures { Reaches result self.old self.new
            (λ e.
            end_statement
            (node (label.Named head.name) head.place
            (two (leaf (label.Named name.name) name.place) tree))
            (name.name ∷ e)) }
    {
        let made = name.name.copy(self.alloc)?;
        let named = Grown::leaf(self.alloc, Label::Named(name.name), name.place);
        let tree = Grown::pair(self.alloc, Label::Named(head.name), head.place, named, tree)?;
        self.end_statement(tree, Some(made))
    }

    /// Ends all that an operator of this level ends.
    #[tactic(auto, using(nl_parse_reading::proofs::Framed::closed_makes_none, crate::proofs::Waiting::nothing_ends))]
    pub fn settle(
        &mut self,
        level: u8,
        shape: Shape,
        tree: Grown,
    ) -> Result<(Shape, Grown), Refusal>
        ensures settled { IfOk result (λ held.
            settle level shape tree (stack_of self.old) ≡ got held.0 held.1 (stack_of self.new)) }
        ensures names { OnOk result (names_of self.new ≡ names_of self.old) }
        ensures refused { IsErrOf result Unexpected → ⊥ }
    {
        let mut held = (shape, tree);
        'frames: while self.ends_newest(level) {
            match self.take() {
                Some(frame) => held = build(self.alloc, frame, held.1)?,
                None => unreachable!(),
            }
        }
        Ok(held)
    }

    // Whether an operator of this level ends the newest frame.
    fn ends_newest(&self, level: u8) -> bool
        ensures { result ≡ ends_newest level (stack_of self.now) }
    {
        match self.newest() {
            Some(frame) => closes(level, frame),
            None => false,
        }
    }

    /// Hands a literal list to what waits for it.
    #[tactic(auto, using(crate::proofs::Waiting::outer_list))]
    pub fn end_list(&mut self, tree: Grown) -> Result<(), Refusal>
        ensures { Reaches result self.old self.new (end_list tree) }
    {
        if !self.is_in_list() {
            return self.closed(Shape::Literal, tree);
        }
        match self.take() {
            Some(Frame::List(bracket, items)) => {
                let mut items = items;
                items.add(self.alloc, tree)?;
                self.enter(Mode::Listing, Frame::List(bracket, items))
            }
            _ => unreachable!(),
        }
    }
}

// Whether the frame waits for an expression, and not only for what closes it.
fn waits(frame: &Frame) -> bool
    ensures { (e : Names) (below : List M.Frame) → result ≡ is_waiting (frame_of e frame.now ∷ below) }
{
    match frame {
        Frame::Call(_, _, _, _, _) => true,
        Frame::Many(_, _, others) => *others > 0,
        Frame::Items(_, _, _, _) => true,
        Frame::Let(_, _) => true,
        _ => false,
    }
}
