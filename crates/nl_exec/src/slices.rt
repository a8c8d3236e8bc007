//! The machine, in slices of units.
ghost use Rattle.std.specs.Prelude.{◌≡◌, ◌≤◌, ◌<◌, ◌+◌, [], IsTrue, IfOk, vec_len};
ghost use Rattle.nl_value.specs.Views.{plain};
ghost use Rattle.nl_agents_layout.specs.Layouts.{layout_of};
ghost use Rattle.nl_agents.specs.Changes.{revalued};
ghost use Rattle.nl_agents.specs.Standing.{fits_rest};
ghost use Rattle.nl_agents.specs.declared.agents.Owner.TheVariants.{Observer};
ghost use Rattle.nl_exec_meaning.specs.Meaning.{lone_site};
ghost use Rattle.nl_exec_meaning.specs.Meaning.{nesting_limit};
ghost use Rattle.nl_exec.specs.Keeping.{HeldIn, KeptIn};
ghost use Rattle.nl_exec.specs.inner.Once.{held_once};

use crate::endings::{End, end_of};
use crate::phase::{Phase, focus_of};
use nl_agents::{Layout, Owner, Store};
use nl_draw::{Mark, Stream};
use nl_exec_acts::Stage;
use nl_exec_levels::focus::Stop;
use nl_exec_levels::levels::{Level, copy_levels};
use nl_exec_levels::run::spend_units;
use nl_exec_meaning::sound::program_is_sound;
use nl_exec_meaning::{Code, Hands, Locals, NESTING_LIMIT, Site};
use nl_fixed::NoMemory;
use nl_grid::Shape;
use nl_tree::{Form, Program, Tree};
use nl_value::Value;
use std::alloc::Global;

// For so many levels a machine keeps its room between texts.
const KEPT_LEVELS: usize = 1_000;

/// How a slice ends.
#[derive(Drop)]
pub enum Turn {
    /// The units are spent, and a further one is wanted.
    More,
    /// The text has ended.
    Ended(End),
}

/// A machine over a program and a store, which runs one text after another and can be stopped at any unit.
///
/// It takes memory for the levels of nesting that a text reaches; when the text is over it keeps room for a thousand of them at most.
///
/// Once memory was wanting in `begin`, `advance` or `finish`, each of these answers so from then on.
#[derive(Drop)]
pub struct Machine<'a, S: Store> {
    code: Code<'a>,
    limit: usize,
    hands: Hands<S>,
    levels: Vec<Level>,
    // The form of the text that is open, or was last.
    form: Form,
    phase: Phase,
    spent: u64,
    budget: u64,
    ghost depth: { vec_len levels ≤ limit },
    ghost within: { spent ≤ budget },
    ghost nesting: { limit ≡ nesting_limit },
    ghost kept: { KeptIn phase code hands },
    ghost held: { HeldIn phase hands levels.items } by { held_once phase hands levels.items },
}

impl<'a, S: Store> Machine<'a, S> {
    ghost use Rattle.std.specs.Prelude.{◌≡◌, ◌↔◌, ℕ, ◌+◌, ◌<◌, ◌^◌, None, false, true, IsTrue, min, IfOk, OnOk, IsErr, Ok};
    ghost use Rattle.nl_tree.specs.Views.{plain as tree};
    ghost use Rattle.nl_draw.specs.Stream.{first_state as first_of_stream};
    ghost use Rattle.nl_agents.specs.World.{first_world};
    ghost use Rattle.nl_exec_acts.specs.Stage.{scene};
    ghost use Rattle.nl_exec_meaning.specs.State.{State, Budget, with_world};
    ghost use Rattle.nl_exec_meaning.specs.LoneTexts as ending;
    ghost use Rattle.nl_exec_meaning.specs.Walks.{at_stream};
    ghost use Rattle.nl_exec_meaning.specs.Ground.{ground_of};
    ghost use Rattle.nl_exec.specs.Endings.{EndFits, end_seen};
    ghost use Rattle.nl_exec_meaning.specs.LoneTexts.{scene_in, in_stream};
    ghost use Rattle.nl_exec.specs.Machines.{state_with, rest_from, rest_of, with_more, end_in, scene_of, in_world, world_of, program_of, form_of, spent_of, units_left, IsOpen, IsClosed, HasFailed, HasNotFailed, meant};
    ghost use Rattle.nl_exec.specs.declared.endings.End.{End};
    ghost use Rattle.nl_exec.specs.declared.slices.Turn.TheVariants.{More, Ended};

    /// A machine over the first world of a program and a shape, with the random stream of a seed and so many units to spend. No text
    /// is open, and the clock is off.
    pub fn new(
        alloc: Global,
        program: &'a Program,
        shape: Shape,
        seed: u64,
        budget: u64,
    ) -> Result<Machine<'a, S>, NoMemory>
        ensures closed { IfOk result (λ m. IsClosed m) }
        ensures program { IfOk result (λ m. program_of m ≡ program.now) }
        ensures scene { IfOk result (λ m.
            scene_of m
            ≡ scene (first_world (layout_of program.now.declared) shape) None (first_of_stream seed)) }
        ensures spent { IfOk result (λ m. spent_of m ≡ 0) }
        ensures left { IfOk result (λ m. units_left m ≡ budget) }
    {
        let code = Code::new(alloc, program)?;
        let layout = Layout::of(alloc, program)?;
        let store = S::new(alloc, &layout, shape)?;
        program_is_sound(program, &layout);
        let experiment = experiment_slot(program);
        let stage = Stage {
            store,
            layout,
            ticks: None,
            stream: Stream::new(seed),
            experiment,
        };
        let hands = Hands {
            stage,
            locals: Locals::empty(alloc),
            site: lone_site(),
        };
        Ok(Machine {
            code,
            limit: NESTING_LIMIT,
            hands,
            levels: Vec::new(alloc),
            form: Form::Commands,
            phase: Phase::Closed,
            spent: 0,
            budget,
        })
    }

    /// The same machine again, with a store and units of its own.
    pub fn copy(&self, alloc: Global) -> Result<Machine<'a, S>, NoMemory>
        ensures rest { IfOk result (λ m. (n : ℕ) → rest_of m n ≡ rest_of self.now n) }
        // And so from every other state, as where the stream is put back or a global variable is set.
        ensures from { IfOk result (λ m. (s : State) → rest_from m s ≡ rest_from self.now s) }
        ensures states { IfOk result (λ m. (n : ℕ) → state_with m n ≡ state_with self.now n) }
        ensures scene { IfOk result (λ m. scene_of m ≡ scene_of self.now) }
        ensures phase { IfOk result (λ m. m.phase ≡ self.now.phase) }
        ensures form { IfOk result (λ m. form_of m ≡ form_of self.now) }
        ensures spent { IfOk result (λ m. spent_of m ≡ spent_of self.now) }
        ensures left { IfOk result (λ m. units_left m ≡ units_left self.now) }
        ensures program { IfOk result (λ m. program_of m ≡ program_of self.now) }
    {
        let code = self.code.copy(alloc)?;
        let hands = copy_hands(alloc, &self.hands)?;
        let levels = copy_levels(alloc, &self.levels)?;
        Ok(Machine {
            code,
            limit: self.limit,
            hands,
            levels,
            form: self.form,
            phase: self.phase,
            spent: self.spent,
            budget: self.budget,
        })
    }

    /// The store.
    pub fn world(&self) -> &S
        ensures { S.world result.now ≡ world_of self.now }
    {
        &self.hands.stage.store
    }

    /// The layout of the program's variables.
    pub fn layout(&self) -> &Layout
        ensures world { result.now ≡ (world_of self.now).rest.layout }
        ensures program { HasNotFailed self.now → result.now ≡ layout_of (program_of self.now).declared }
    {
        &self.hands.stage.layout
    }

    /// The units spent so far.
    pub fn spent(&self) -> u64
        ensures { result ≡ spent_of self.now }
    {
        self.spent
    }

    /// Spends one unit. False, with nothing changed, exactly where the budget is spent.
    pub fn spend_one(&mut self) -> bool
        requires { IsClosed self.old }
        ensures refused { (result ≡ false) ↔ (units_left self.old ≡ 0) }
        ensures kept { result ≡ false → spent_of self.new ≡ spent_of self.old }
        ensures spent { result ≡ true → spent_of self.new ≡ spent_of self.old + 1 }
        ensures bounded { units_left self.new + spent_of self.new ≡ units_left self.old + spent_of self.old }
        ensures closed { IsClosed self.new }
        ensures scene { scene_of self.new ≡ scene_of self.old }
        ensures program { program_of self.new ≡ program_of self.old }
    {
        if self.spent == self.budget {
            return false;
        }
        self.spent += 1;
        true
    }

    /// Where the random stream stands.
    pub fn mark(&self) -> Mark
        ensures { result ≡ (scene_of self.now).stream }
    {
        self.hands.stage.stream.save()
    }

    /// Puts the random stream back: the words to come are those that were to come at the mark. All else stays.
    pub fn put_back(&mut self, mark: Mark)
        ensures stream { scene_of self.new ≡ in_stream mark (scene_of self.old) }
        ensures rest { (n : ℕ) →
            rest_of self.new n ≡ rest_from self.old (at_stream mark (state_with self.old n)) }
        ensures phase { self.new.phase ≡ self.old.phase }
        ensures form { form_of self.new ≡ form_of self.old }
        ensures spent { spent_of self.new ≡ spent_of self.old }
        ensures left { units_left self.new ≡ units_left self.old }
        ensures program { program_of self.new ≡ program_of self.old }
    {
        restore(&mut self.hands, mark);
    }

    /// A global variable has the value: one of the model's, or behind these the number of the run and the name of the experiment. All
    /// else stays.
    pub fn set_global(&mut self, slot: u32, value: Value)
        requires slot { slot < (world_of self.old).rest.layout.globals + 2 }
        requires value { IsTrue (fits_rest (world_of self.old).rest (plain value)) }
        ensures world { scene_of self.new
            ≡ in_world (revalued Observer slot (plain value) (world_of self.old)) (scene_of self.old) }
        ensures rest { (n : ℕ) → rest_of self.new n ≡ rest_from self.old
            (with_world (revalued Observer slot (plain value) (world_of self.old)) (state_with self.old n)) }
        ensures phase { self.new.phase ≡ self.old.phase }
        ensures form { form_of self.new ≡ form_of self.old }
        ensures spent { spent_of self.new ≡ spent_of self.old }
        ensures left { units_left self.new ≡ units_left self.old }
        ensures program { program_of self.new ≡ program_of self.old }
    {
        give_global(&mut self.hands, slot, value);
    }

    /// Gives up the open text where it stands, if there is one. All else stays. A machine that wanted memory stays so.
    pub fn abandon(&mut self)
        ensures closed { HasNotFailed self.old → IsClosed self.new }
        ensures failed { HasFailed self.old → HasFailed self.new }
        ensures scene { scene_of self.new ≡ scene_of self.old }
        ensures spent { spent_of self.new ≡ spent_of self.old }
        ensures left { units_left self.new ≡ units_left self.old }
        ensures program { program_of self.new ≡ program_of self.old }
    {
        match self.phase {
            Phase::Failed | Phase::Closed => {}
            Phase::Begun(_) | Phase::Waiting(_) => {
                self.phase = Phase::Closed;
                clear(&mut self.levels);
            }
        }
    }

    /// Opens a text of a form, which the observer runs.
    pub fn begin(&mut self, alloc: Global, text: &'a Tree, form: Form) -> Result<(), NoMemory>
        requires { IsOpen self.old → HasFailed self.old }
        // What is left of it is what it means, with any number of units.
        ensures rest { OnOk result ((n : ℕ) → rest_of self.new n ≡ meant self.old form (tree text.now) n) }
        ensures form { OnOk result (form_of self.new ≡ form) }
        ensures open { OnOk result (IsOpen self.new) }
        ensures scene { scene_of self.new ≡ scene_of self.old }
        ensures spent { spent_of self.new ≡ spent_of self.old }
        ensures left { units_left self.new ≡ units_left self.old }
        ensures program { program_of self.new ≡ program_of self.old }
        ensures failed { IsErr result → HasFailed self.new }
        ensures stays { HasFailed self.old → IsErr result }
    {
        let Phase::Closed = self.phase else {
            self.phase = Phase::Failed;
            return Err(NoMemory);
        };
        self.phase = Phase::Failed;
        let root = self.code.open(alloc, text)?;
        self.hands.locals = Locals::empty(alloc);
        self.hands.site = lone_site();
        self.levels.clear();
        self.form = form;
        self.phase = Phase::Begun(root);
        Ok(())
    }

    /// Works until the text ends, or until a unit is wanted and these units were spent.
    pub fn advance(&mut self, alloc: Global, units: u64) -> Result<Turn, NoMemory>
        requires { IsOpen self.old }
        // More: what is left with n more units is what was left with units + n.
        ensures more { result ≡ Ok More → (n : ℕ) → rest_of self.new n ≡ rest_of self.old (units + n) }
        // What it has is what the rest leaves with no unit.
        ensures stands { result ≡ Ok More → scene_in (rest_of self.new 0).state ≡ scene_of self.new }
        ensures cut { result ≡ Ok More → (rest_of self.new 0).exit ≡ Budget }
        ensures spends { result ≡ Ok More → spent_of self.new ≡ spent_of self.old + units }
        ensures further { result ≡ Ok More → 0 < units_left self.new }
        // Ended: the end and the scene of what was left with all units that could be spent.
        ensures end { (e : End) → result ≡ Ok (Ended e) →
            end_seen e ≡ end_in self.old (rest_of self.old (min units (units_left self.old))) }
        ensures fits { (e : End) → result ≡ Ok (Ended e) → EndFits (ground_of (world_of self.new).rest) e }
        ensures scene { (e : End) → result ≡ Ok (Ended e) →
            scene_in (rest_of self.old (min units (units_left self.old))).state ≡ scene_of self.new }
        ensures spent { (e : End) → result ≡ Ok (Ended e) →
            spent_of self.new + (rest_of self.old (min units (units_left self.old))).state.units
            ≡ spent_of self.old + min units (units_left self.old) }
        // Where fewer units were asked for than are left, the text itself has ended: it leaves all further units.
        ensures over { (e : End) → result ≡ Ok (Ended e) → units < units_left self.old →
            (n : ℕ) → rest_of self.old (units + n) ≡ with_more n (rest_of self.old units) }
        // It ends for want of units only where none is left of all.
        ensures last { (e : End) → result ≡ Ok (Ended e) → end_seen e ≡ ending.Budget → units_left self.new ≡ 0 }
        ensures bounded { units_left self.new + spent_of self.new ≡ units_left self.old + spent_of self.old }
        ensures within { spent_of self.old + units_left self.old < 2 ^ 64 }
        ensures open { result ≡ Ok More → IsOpen self.new }
        ensures closed { (e : End) → result ≡ Ok (Ended e) → IsClosed self.new }
        ensures form { form_of self.new ≡ form_of self.old }
        ensures program { program_of self.new ≡ program_of self.old }
        // After a want of memory it stays so.
        ensures failed { IsErr result → HasFailed self.new }
        ensures stays { HasFailed self.old → IsErr result }
    {
        let room = self.budget - self.spent;
        let Some(start) = focus_of(self.phase, self.form) else {
            self.phase = Phase::Failed;
            return Err(NoMemory);
        };
        self.phase = Phase::Failed;
        program_is_sound(self.code.program(), &self.hands.stage.layout);
        let asked = units.min(room);
        let (stop, left) = spend_units(
            alloc,
            &self.code,
            &mut self.hands,
            self.limit,
            &mut self.levels,
            start,
            asked,
        )?;
        self.spent += asked - left;
        match stop {
            Stop::End(exit) => {
                self.phase = Phase::Closed;
                clear(&mut self.levels);
                Ok(Turn::Ended(end_of(self.form, exit)))
            }
            Stop::Wanted(wish) => {
                if self.spent == self.budget {
                    self.phase = Phase::Closed;
                    clear(&mut self.levels);
                    return Ok(Turn::Ended(End::Budget));
                }
                self.phase = Phase::Waiting(wish);
                Ok(Turn::More)
            }
        }
    }

    /// Works until the text ends.
    pub fn finish(&mut self, alloc: Global) -> Result<End, NoMemory>
        requires { IsOpen self.old }
        ensures end { IfOk result (λ e.
            end_seen e ≡ end_in self.old (rest_of self.old (units_left self.old))) }
        ensures fits { IfOk result (EndFits (ground_of (world_of self.new).rest)) }
        ensures scene { OnOk result
            (scene_in (rest_of self.old (units_left self.old)).state ≡ scene_of self.new) }
        ensures left { OnOk result
            ((rest_of self.old (units_left self.old)).state.units ≡ units_left self.new) }
        ensures bounded { units_left self.new + spent_of self.new ≡ units_left self.old + spent_of self.old }
        ensures last { IfOk result (λ e. end_seen e ≡ ending.Budget → units_left self.new ≡ 0) }
        ensures closed { OnOk result (IsClosed self.new) }
        ensures program { program_of self.new ≡ program_of self.old }
        ensures failed { IsErr result → HasFailed self.new }
        ensures stays { HasFailed self.old → IsErr result }
    {
        match self.advance(alloc, u64::MAX)? {
            Turn::Ended(end) => Ok(end),
            Turn::More => unreachable!(),
        }
    }
}

// Lets go of the levels of a text that is over, and of room that few texts want.
fn clear(levels: &mut Vec<Level>)
    ensures items { levels.new.items ≡ [] }
    ensures len { vec_len levels.new ≡ 0 }
{
    levels.clear();
    levels.shrink_to(KEPT_LEVELS);
}

// Who runs a lone text.
fn lone_site() -> Site
    ensures { result ≡ lone_site }
{
    Site {
        agent: Owner::Observer,
        asker: Owner::Observer,
        body: 0,
    }
}

// The slot of the name of the experiment, which comes after that of the number of the run.
#[tactic(auto, unfolding(nl_agents_layout::specs::Layouts::layout_of))]
fn experiment_slot(program: &Program) -> u32
    ensures { result ≡ (layout_of program.now.declared).globals + 1 }
{
    program.global(b"behaviorspace-experiment-name").unwrap()
}

// The random stream stands where the mark says.
fn restore<S: Store>(hands: &mut Hands<S>, mark: Mark)
    ensures world { S.world hands.new.stage.store ≡ S.world hands.old.stage.store }
    ensures ticks { hands.new.stage.ticks ≡ hands.old.stage.ticks }
    ensures stream { hands.new.stage.stream ≡ mark }
    ensures locals { hands.new.locals ≡ hands.old.locals }
    ensures site { hands.new.site ≡ hands.old.site }
{
    hands.stage.stream.restore(mark);
}

// A global variable has the value.
#[tactic(auto, using(nl_exec_meaning::proofs::Ground::revalued_ground))]
fn give_global<S: Store>(hands: &mut Hands<S>, slot: u32, value: Value)
    requires slot { slot < (S.world hands.old.stage.store).rest.layout.globals + 2 }
    requires value { IsTrue (fits_rest (S.world hands.old.stage.store).rest (plain value)) }
    ensures world { S.world hands.new.stage.store
        ≡ revalued Observer slot (plain value) (S.world hands.old.stage.store) }
    ensures ticks { hands.new.stage.ticks ≡ hands.old.stage.ticks }
    ensures stream { hands.new.stage.stream ≡ hands.old.stage.stream }
    ensures locals { hands.new.locals ≡ hands.old.locals }
    ensures site { hands.new.site ≡ hands.old.site }
{
    // What the clause rests on: each global variable of a world has a value.
    let _shape = hands.stage.store.shape();
    let _old = hands.stage.store.set_var(Owner::Observer, slot, value);
}

// The same hands again, with a store of their own.
fn copy_hands<S: Store>(alloc: Global, hands: &Hands<S>) -> Result<Hands<S>, NoMemory>
    ensures world { IfOk result (λ copied. S.world copied.stage.store ≡ S.world hands.now.stage.store) }
    ensures ticks { IfOk result (λ copied. copied.stage.ticks ≡ hands.now.stage.ticks) }
    ensures stream { IfOk result (λ copied. copied.stage.stream ≡ hands.now.stage.stream) }
    ensures locals { IfOk result (λ copied. copied.locals ≡ hands.now.locals) }
    ensures site { IfOk result (λ copied. copied.site ≡ hands.now.site) }
{
    let store = hands.stage.store.copy(alloc)?;
    let layout = hands.stage.layout.copy(alloc)?;
    let locals = hands.locals.copy(alloc)?;
    let stage = Stage {
        store,
        layout,
        ticks: hands.stage.ticks,
        stream: hands.stage.stream.copy(),
        experiment: hands.stage.experiment,
    };
    Ok(Hands {
        stage,
        locals,
        site: hands.site,
    })
}
