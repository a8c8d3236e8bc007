//! What equality and order mean. These functions do nothing: the contract of each is a law.
ghost use Rattle.nl_value.specs.Laws.{EqualityIsAnEquivalence, OrderIsTotal, AllValuesHaveAnOrder, SortingIsAFunction, ListsAreTheirItems, EveryValueFitsNoLife};

/// For each `Life`, each value is the same as itself, and two values that are the same are the same as the same values.
pub fn equality_is_an_equivalence()
    ensures { EqualityIsAnEquivalence }
{}

/// For each `Life`, the order of values is strict and total within each kind that has one: two values have an order exactly
/// where they are two numbers, two texts, two patches, two living turtles or two living links; then one comes before the other,
/// or they are the same, and never two of these; and the order is transitive.
pub fn order_is_total()
    ensures { OrderIsTotal }
{}

/// For each `Life`, any two values compare, and where they have an order they compare by it.
pub fn all_values_have_an_order()
    ensures { AllValuesHaveAnOrder }
{}

/// What a stable sort makes of a list is a function of the list: where any two items compare, a sorted list with the ties of
/// another in place is that list's `sorted_by`.
pub fn sorting_is_a_function<T>()
    ensures { SortingIsAFunction T }
{}

/// The size, the depth, the text and the fit of a list, and its equality, are told by its items.
pub fn lists_are_their_items()
    ensures { ListsAreTheirItems }
{}

/// Every value fits `NoLife`.
pub fn every_value_fits_no_life()
    ensures { EveryValueFitsNoLife }
{}
