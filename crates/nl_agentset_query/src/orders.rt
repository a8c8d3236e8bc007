//! Lists of numbers, put in order.
ghost use Rattle.std.specs.Prelude.{◌≡◌, IfOk};
ghost use Rattle.std.specs.List.Sorted.{IsStrictlyIncreasing};
ghost use Rattle.nl_agentset_query.specs.Orders.{SameNumbers};

use nl_fixed::NoMemory;
use nl_value::Serials;
use std::alloc::Global;

/// The numbers of a list in ascending order, each once.
pub fn in_order(mut list: Vec<u64>) -> Serials
    ensures same { SameNumbers list.items result }
    ensures ascending { IsStrictlyIncreasing result }
{
    list.sort_unstable();
    list.dedup();
    Serials::of_vec(list)
}

/// Patches that ascend, as the numbers of a set.
pub fn of_patches(alloc: Global, patches: &[u32]) -> Result<Serials, NoMemory>
    requires { IsStrictlyIncreasing patches.now }
    ensures { IfOk result (λ numbers. numbers ≡ patches.now) }
{
    let mut numbers = Vec::new(alloc);
    for patch in patches {
        numbers.push(u64::from(*patch))?;
    }
    Ok(Serials::of_vec(numbers))
}
