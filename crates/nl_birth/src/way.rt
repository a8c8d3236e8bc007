//! How links lead.
ghost use Rattle.std.specs.Prelude.{◌≡◌};
ghost use Rattle.nl_birth.specs.Links.{has_direction, first_end, second_end};

/// How the links lead that a turtle makes: with its targets and without a direction, to each of them, or from each to the turtle.
#[derive(Clone, Copy, PartialEq, Eq, Debug)]
pub enum Way {
    With,
    To,
    From,
}

impl Way {
    /// Whether the links have a direction.
    pub fn has_direction(self) -> bool
        ensures { result ≡ has_direction self }
    {
        match self {
            Way::With => false,
            Way::To | Way::From => true,
        }
    }

    /// The ends of the link of the caller and a target, the first one first. Without a direction that is the one of the lower serial.
    pub fn ends(self, caller: u64, target: u64) -> (u64, u64)
        ensures first { result.0 ≡ first_end self caller target }
        ensures second { result.1 ≡ second_end self caller target }
    {
        match self {
            Way::With => (caller.min(target), caller.max(target)),
            Way::To => (caller, target),
            Way::From => (target, caller),
        }
    }
}

#[cfg(test)]
mod tests {
    use super::*;

    #[test]
    fn ends_by_the_way(rt: HostRuntime) {
        let rows = [
            (Way::With, 3, 7, (3, 7)),
            (Way::With, 7, 3, (3, 7)),
            (Way::To, 7, 3, (7, 3)),
            (Way::From, 7, 3, (3, 7)),
        ];
        for (way, caller, target, ends) in rows {
            assert_eq!(rt; way.ends(caller, target), ends);
        }
    }
}
