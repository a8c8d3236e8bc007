//! In which chains an agent is.
ghost use Rattle.std.specs.Prelude.{◌≡◌, ◌<◌, Some, IsSome, IfSome, IsSomeAnd};
ghost use Rattle.nl_grid.specs.Geometry.{patches_of};
ghost use Rattle.nl_store_records.specs.Records.{record_at, fields_at};
ghost use Rattle.nl_index.specs.Index.{StandsOn, birth_chain, breed_chain, by_birth, by_breed, by_patch, chain_of, patch_chain};

use nl_agents::Steps;
use nl_grid::Shape;
use nl_store_records::{Body, Records};
use std::marker::Brand;
use std::sync::ledger::{Blank, Ledger};

/// The numbers of the chains of births, of its patch and of its breed that an agent is in.
#[derive(Clone, Copy, Debug)]
pub(crate) struct Homes {
    pub births: usize,
    pub patch: Option<usize>,
    pub breed: Option<usize>,
}

/// Those of an agent that is this, and of this breed.
fn homes_of(shape: Shape, body: Body, breed: u32) -> Homes
    requires { StandsOn shape body }
    ensures births { result.births ≡ birth_chain body }
    ensures two { result.births < 2 }
    ensures patch { result.patch ≡ patch_chain shape body }
    ensures below { IfSome result.patch (λ patch. patch < patches_of shape) }
    ensures breed { result.breed ≡ breed_chain breed body }
{
    match body {
        Body::Turtle(at) => Homes {
            births: 0,
            patch: Some(shape.patch_of(at) as usize),
            breed: Some(breed as usize),
        },
        Body::Link { .. } => Homes {
            births: 1,
            patch: None,
            breed: None,
        },
    }
}

/// Those of the agent under a key, which is read with this counter.
fn homes_counted<L: Ledger>(blank: Blank, shape: Shape, records: &Records, key: usize) -> Homes
    requires name { blank.name ≡ L.name }
    requires parts { blank.parts ≡ L.parts }
    requires one { blank.parts ≡ 1 }
    requires held { IsSome (record_at records.now key) }
    requires stands { IsSomeAnd (fields_at (record_at records.now) key) (λ f. StandsOn shape f.body) }
    ensures births { chain_of by_birth (fields_at (record_at records.now) key) ≡ Some result.births }
    ensures two { result.births < 2 }
    ensures patch { chain_of (by_patch shape) (fields_at (record_at records.now) key) ≡ result.patch }
    ensures below { IfSome result.patch (λ patch. patch < patches_of shape) }
    ensures breed { chain_of by_breed (fields_at (record_at records.now) key) ≡ result.breed }
{
    let mut steps = Steps::<L>::new(blank);
    let fields = records.read(key, &mut steps).unwrap().fields();
    homes_of(shape, fields.body, fields.breed)
}

/// Those of the agent under a key. It is one read, with a counter of its own.
pub(crate) fn homes_at(shape: Shape, records: &Records, key: usize) -> Homes
    requires held { IsSome (record_at records.now key) }
    requires stands { IsSomeAnd (fields_at (record_at records.now) key) (λ f. StandsOn shape f.body) }
    ensures births { chain_of by_birth (fields_at (record_at records.now) key) ≡ Some result.births }
    ensures two { result.births < 2 }
    ensures patch { chain_of (by_patch shape) (fields_at (record_at records.now) key) ≡ result.patch }
    ensures below { IfSome result.patch (λ patch. patch < patches_of shape) }
    ensures breed { chain_of by_breed (fields_at (record_at records.now) key) ≡ result.breed }
{
    homes_counted::<Brand>(Blank::new(1), shape, records, key)
}
