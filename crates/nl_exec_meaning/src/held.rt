//! A value that a frame holds.
ghost use Rattle.std.specs.Prelude.{◌≡◌, IfOk};
ghost use Rattle.nl_value.specs.Views.{plain};

use nl_fixed::NoMemory;
use nl_value::Value;
use std::alloc::Global;
use std::marker::Model;

/// A value that a frame holds while another is evaluated, seen by contracts as the plain value.
#[derive(Drop)]
pub struct HeldValue {
    value: Value,
}

impl Model for HeldValue {
    ghost use Rattle.nl_value.specs.Plain.{Plain};
    ghost use Rattle.nl_value.specs.inner.Codes.{plain_code};
    ghost use Rattle.nl_value.specs.Views.{plain};

    ghost Value = { Plain };

    ghost coded = { plain_code };

    ghost view = { λ held. plain held.value };
}

impl HeldValue {
    /// Holds the value.
    pub fn new(value: Value) -> HeldValue
        ensures { result ≡ plain value }
    {
        HeldValue { value }
    }

    /// The value that was held.
    pub fn into_value(self) -> Value
        ensures { plain result ≡ self }
    {
        self.value
    }

    /// The same value again.
    pub fn copy(&self, alloc: Global) -> Result<HeldValue, NoMemory>
        ensures { IfOk result (λ again. again ≡ self.now) }
    {
        let value = self.value.copy(alloc)?;
        Ok(HeldValue { value })
    }
}
