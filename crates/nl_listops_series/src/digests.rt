//! Digests of values: values that are the same have the same digest, and others mostly another one. All sets of agents have the same
//! one, since which agents belong to a set is for the world to say.
ghost use Rattle.std.specs.Prelude.{◌≡◌, fold};
ghost use Rattle.nl_value.specs.Equality.{settled, all_settled};
ghost use Rattle.nl_value.specs.Plain.{plains};
ghost use Rattle.nl_value.specs.Views.{plain};
ghost use Rattle.nl_listops_series.specs.inner.Digests.{stirred, digest_of, digests_of};

use nl_value::{Items, Life, Value};

/// A great odd number, by which a digest is spread over all bits before more is added.
const SPREAD: u64 = 6_364_136_223_846_793_005;

/// The digest with one number more.
fn stirred(digest: u64, more: u64) -> u64
    ensures { result ≡ stirred digest more }
{
    digest.wrapping_mul(SPREAD).wrapping_add(more)
}

/// The digest with the bytes of a text.
fn stirred_bytes(digest: u64, bytes: &[u8]) -> u64
    ensures { result ≡ fold stirred digest bytes.now }
{
    let mut all = digest;
    for byte in bytes {
        all = stirred(all, u64::from(*byte));
    }
    all
}

/// The digest with those of the items.
#[cycle(digest)]
fn stirred_items<L: Life>(digest: u64, items: &Items, life: &L) -> u64
    ensures { result ≡ digests_of digest (all_settled (L.living life.now) (plains items.now)) }
{
    let values = items.as_slice();
    let mut all = digest;
    for value in values {
        all = stirred(all, digest_of(value, life));
    }
    all
}

/// The digest of a value.
#[cycle(digest)]
pub(crate) fn digest_of<L: Life>(value: &Value, life: &L) -> u64
    ensures { result ≡ digest_of (settled (L.living life.now) (plain value.now)) }
{
    match value {
        Value::Number(number) => stirred(0, number.millionths().unsigned_abs()),
        Value::Truth(truth) => { if *truth { 1 } else { 2 } }
        Value::Words(text) => stirred_bytes(3, text.as_bytes()),
        Value::Blank => 3,
        Value::Items(items) => stirred_items(4, items, life),
        Value::Turtle(turtle) if life.turtle_lives(*turtle) => stirred(5, *turtle),
        Value::Patch(patch) => stirred(6, u64::from(*patch)),
        Value::Link(link) if life.link_lives(*link) => stirred(7, *link),
        Value::Turtle(_) | Value::Link(_) | Value::Nobody => 8,
        Value::Set(_) => 9,
    }
}
