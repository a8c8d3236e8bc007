//! Laws of slots. Each function does nothing: its contract is a law.
ghost use Rattle.nl_agents_layout.specs.SlotLaws.{OwnedHaveSlots, SlotsAreApart, GlobalsKeepTheirSlots, LayoutsTellSlots, ColorAndHeadingAreFirst, SlotsAreBelow, OwnersAreSome};

/// Each variable of agents that a model declares has a slot, no two variables of agents have the same, a global variable has the slot that
/// its program tells, and the layout of a model tells all of them. `color` and `heading` have the first two slots in every layout.
pub fn slots_are_names()
    ensures owned { OwnedHaveSlots }
    ensures apart { SlotsAreApart }
    ensures globals { GlobalsKeepTheirSlots }
    ensures told { LayoutsTellSlots }
    ensures first { ColorAndHeadingAreFirst }
{}

/// The slots that a model's layout lists are below their count, and what agents of a breed own is among what some agents own.
pub fn layouts_are_whole()
    ensures below { SlotsAreBelow }
    ensures some { OwnersAreSome }
{}
